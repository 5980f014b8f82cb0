// The calls for the season sheet: 0 or the refusal number comes back, its place by a further call on the same input. A sheet is 52 bytes; 52 zero bytes are the empty one.
ghost use Rattle.std.specs.Prelude.{◌≡◌};
ghost use Rattle.sheet.specs.Sheet.{add_bytes, lent_sheet};

// Adds what the messages of a buffer say of one short or int member to a sheet: 0 or the refusal number. On a refusal the sheet stays.
// Wrong and ruled out: the refusal's place in place of its number; a call that leaves the sheet as it was.
#[unsafe(no_mangle)]
pub extern "C" fn icehub_sheet(
    table: &[u8],
    top: u32,
    buffer: &[u8],
    member: u32,
    sheet: &mut [u8],
) -> u32
    ensures value { result ≡ (add_bytes table.now top buffer.now member sheet.old).refusal }
    ensures sheet_after { sheet.new ≡ lent_sheet (add_bytes table.now top buffer.now member sheet.old) sheet.old }
{
    sheet::add_bytes(table, top, buffer, member, sheet)
}

// The place of the refusal that `icehub_sheet` gives on the same input; 0 if it gives none. It hangs on table and top alone.
// Wrong and ruled out: the refusal's number in its place; 0 for every table.
#[unsafe(no_mangle)]
pub extern "C" fn icehub_sheet_place(
    table: &[u8],
    top: u32,
    buffer: &[u8],
    member: u32,
    sheet: &[u8],
) -> u32
    ensures { result ≡ (add_bytes table.now top buffer.now member sheet.now).place }
{
    sheet::place(table, top)
}
