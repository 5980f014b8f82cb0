// Calls for the season sheet. The line: the refusal's number and its place, then the bytes of the sheet after the call.
use crate::print;
use std::io;
use std::io::Write;

// A call on a sheet in lent bytes.
fn add<W: Write>(
    to: &mut W,
    table: &[u8],
    top: u32,
    buffer: &[u8],
    member: u32,
    lent: &mut [u8],
) -> io::Result<()> {
    let n = sheet::add_bytes(table, top, buffer, member, lent);
    print::number(to, n as u64)?;
    print::number(to, sheet::place(table, top) as u64)?;
    print::hex(to, lent)?;
    to.write_all(b"\n")?;
    Ok(())
}

// A call on a copy of these bytes.
pub fn sheet_call<W: Write>(
    to: &mut W,
    table: &[u8],
    top: u32,
    buffer: &[u8],
    member: u32,
    before: &[u8],
    lent: &mut [u8],
) -> io::Result<()> {
    let n = before.len();
    if n <= lent.len() {
        wire::put_part(lent, 0, before, 0, n);
        add(to, table, top, buffer, member, &mut lent[0..n])?;
    }
    Ok(())
}
