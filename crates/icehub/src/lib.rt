// The calls of the firmware in C, with numbers and byte slices only: 0 or the refusal number comes back, place and other numbers by further calls on the same input.
// The numbers of an answer are those of `numbers`. `room` is the length in bytes of the lent list or output, so that a further call judges what the first one judged.
// changes.rt has the calls that set and remove a member, conversion.rt the converter's, nights.rt those for many messages in one buffer, endpoints.rt those for endpoints, plans.rt those for burst plans, guards.rt those of the frost guard, sheets.rt those for the season sheet, comparisons.rt those that compare two tables.
#![tactic(auto)]

mod changes;
mod comparisons;
mod conversion;
mod endpoints;
mod guards;
pub mod nights;
mod plans;
mod sheets;

ghost use Rattle.std.specs.Prelude.{◌≡◌, length, get_or};
ghost use Rattle.encoding.specs.Message.{reading, listed, reading_of, reading_numbers};
ghost use Rattle.encoding.specs.Write.{writing, output};
ghost use Rattle.reading.specs.Numbers.{reading_numbered, with_numbers};
ghost use Rattle.view.specs.Views.{view_answer, view_within, with_view};
ghost use Rattle.numbers.specs.ViewNumber.{view_number};
ghost use Rattle.icehub.specs.TableNumbers.{table_number};
ghost use Rattle.icehub.specs.Numbers.{read_number};
ghost use Rattle.icehub.specs.WriteNumbers.{write_number};

// The check of a table by itself: 0, or the number of the first rule that it breaks, 31 to 39.
// Wrong and ruled out: the rule's place in place of its number; 1 for every rule.
#[unsafe(no_mangle)]
pub extern "C" fn icehub_table(table: &[u8]) -> u32
    ensures { result ≡ table_number table.now 0 }
{
    numbers::rule(verdict::check(table))
}

// The place of the first broken rule; 0 if the table breaks none.
// Wrong and ruled out: the rule's number in its place; 0 for every table.
#[unsafe(no_mangle)]
pub extern "C" fn icehub_table_place(table: &[u8]) -> u32
    ensures { result ≡ table_number table.now 1 }
{
    numbers::rule_place(verdict::check(table))
}

// Number i of the reader's answer with a lent list of `room` bytes.
fn read_number(table: &[u8], top: u32, message: &[u8], room: usize, i: usize) -> u32
    ensures { result ≡ read_number table.now top message.now room i }
{
    numbers::number(reading::answer(table, top, message, room), i)
}

// The reader: 0 or the refusal number, and the rows in the lent list.
// Wrong and ruled out: the refusal's place in place of its number; a call that leaves the list as it was.
#[unsafe(no_mangle)]
pub extern "C" fn icehub_read(table: &[u8], top: u32, message: &[u8], rows: &mut [u8]) -> u32
    ensures value { result ≡ read_number table.now top message.now (length rows.old) 0 }
    ensures rows_after { rows.new ≡ listed (reading table.now top message.now (length rows.old)) rows.old }
{
    numbers::number(reading::read(table, top, message, rows), 0)
}

// The refusal's place; 0 if accepted.
// Wrong and ruled out: the refusal's number in place of its place; the place of a message that is refused for another list.
#[unsafe(no_mangle)]
pub extern "C" fn icehub_read_place(table: &[u8], top: u32, message: &[u8], room: usize) -> u32
    ensures { result ≡ read_number table.now top message.now room 1 }
{
    read_number(table, top, message, room, 1)
}

// The first known type.
// Wrong and ruled out: the format in its place; the type that another list gives.
#[unsafe(no_mangle)]
pub extern "C" fn icehub_read_type(table: &[u8], top: u32, message: &[u8], room: usize) -> u32
    ensures { result ≡ read_number table.now top message.now room 2 }
{
    read_number(table, top, message, room, 2)
}

// The format: 0 compact, 1 sliced or a parameter list.
// Wrong and ruled out: the first known type in its place; the format that another list gives.
#[unsafe(no_mangle)]
pub extern "C" fn icehub_read_format(table: &[u8], top: u32, message: &[u8], room: usize) -> u32
    ensures { result ≡ read_number table.now top message.now room 3 }
{
    read_number(table, top, message, room, 3)
}

// The row count.
// Wrong and ruled out: the optionals skipped in its place; the count where the list is too short.
#[unsafe(no_mangle)]
pub extern "C" fn icehub_read_count(table: &[u8], top: u32, message: &[u8], room: usize) -> u32
    ensures { result ≡ read_number table.now top message.now room 4 }
{
    read_number(table, top, message, room, 4)
}

// How many optionals were skipped.
// Wrong and ruled out: the slices skipped in their place; those that another list gives.
#[unsafe(no_mangle)]
pub extern "C" fn icehub_read_optionals_skipped(
    table: &[u8],
    top: u32,
    message: &[u8],
    room: usize,
) -> u32
    ensures { result ≡ read_number table.now top message.now room 5 }
{
    read_number(table, top, message, room, 5)
}

// How many slices were skipped.
// Wrong and ruled out: the optionals skipped in their place; those that another list gives.
#[unsafe(no_mangle)]
pub extern "C" fn icehub_read_slices_skipped(
    table: &[u8],
    top: u32,
    message: &[u8],
    room: usize,
) -> u32
    ensures { result ≡ read_number table.now top message.now room 6 }
{
    read_number(table, top, message, room, 6)
}

// The reader with its five numbers: 0 or the refusal number, the rows in the lent list, and first known type, format, rows, optionals and slices skipped in the lent numbers.
// Wrong and ruled out: the refusal's place in place of its number; a call that leaves the numbers as they were.
#[unsafe(no_mangle)]
pub extern "C" fn icehub_read_numbers(
    table: &[u8],
    top: u32,
    message: &[u8],
    rows: &mut [u8],
    numbers: &mut [u8],
) -> u32
    ensures value { result ≡ get_or (reading_numbers (reading_of (reading_numbered table.now top message.now (length rows.old) (length numbers.old)))) 0 0 }
    ensures rows_after { rows.new ≡ listed (reading_numbered table.now top message.now (length rows.old) (length numbers.old)) rows.old }
    ensures numbers_after { numbers.new ≡ with_numbers (reading_of (reading_numbered table.now top message.now (length rows.old) (length numbers.old))) numbers.old }
{
    numbers::number(reading::read_numbers(table, top, message, rows, numbers), 0)
}

// The member view: 0 or the refusal number, and origin, place and length in the lent numbers.
// Wrong and ruled out: the refusal's place in place of its number; the view of another member.
#[unsafe(no_mangle)]
pub extern "C" fn icehub_member(
    table: &[u8],
    top: u32,
    message: &[u8],
    member: u32,
    numbers: &mut [u8],
) -> u32
    ensures value { result ≡ view_number (view_within (length numbers.old) (view_answer table.now top message.now member)) }
    ensures numbers_after { numbers.new ≡ with_view (view_within (length numbers.old) (view_answer table.now top message.now member)) numbers.old }
{
    numbers::view_number(view::member_numbers(table, top, message, member, numbers))
}

// Number i of the writer's answer for an output of `room` bytes.
fn write_number(
    table: &[u8],
    top: u32,
    format: u32,
    count: u32,
    rows: &[u8],
    buffer: &[u8],
    room: usize,
    i: usize,
) -> u32
    ensures { result ≡ write_number table.now top format count rows.now buffer.now room i }
{
    numbers::written_number(
        writing::written(table, top, format, count, rows, buffer, room),
        i,
    )
}

// The writer: 0 or the refusal number, and the message at the output's start.
// Wrong and ruled out: the refusal's place in place of its number; a call that leaves the output as it was.
#[unsafe(no_mangle)]
pub extern "C" fn icehub_write(
    table: &[u8],
    top: u32,
    format: u32,
    count: u32,
    rows: &[u8],
    buffer: &[u8],
    out: &mut [u8],
) -> u32
    ensures value { result ≡ write_number table.now top format count rows.now buffer.now (length out.old) 0 }
    ensures out_after { out.new ≡ output (writing table.now top format count rows.now buffer.now (length out.old)) out.old }
{
    numbers::written_number(
        writing::write(table, top, format, count, rows, buffer, out),
        0,
    )
}

// The refusal's place; 0 if written.
// Wrong and ruled out: the refusal's number in its place; the place that another output gives.
#[unsafe(no_mangle)]
pub extern "C" fn icehub_write_place(
    table: &[u8],
    top: u32,
    format: u32,
    count: u32,
    rows: &[u8],
    buffer: &[u8],
    room: usize,
) -> u32
    ensures { result ≡ write_number table.now top format count rows.now buffer.now room 1 }
{
    write_number(table, top, format, count, rows, buffer, room, 1)
}

// The message's length; 0 on a refusal.
// Wrong and ruled out: the bytes needed where the output is too short; the length that another output gives.
#[unsafe(no_mangle)]
pub extern "C" fn icehub_write_length(
    table: &[u8],
    top: u32,
    format: u32,
    count: u32,
    rows: &[u8],
    buffer: &[u8],
    room: usize,
) -> u32
    ensures { result ≡ write_number table.now top format count rows.now buffer.now room 2 }
{
    write_number(table, top, format, count, rows, buffer, room, 2)
}
