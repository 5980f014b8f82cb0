// Calls that set or remove a member. The line: the refusal's number, its place and the result's length, then the result in hex, and `touched` if a byte after it changed.
use crate::{print, writes};
use std::io;
use std::io::Write;

// A call that sets a member, with an output of just these bytes.
pub fn set_call<W: Write>(
    to: &mut W,
    table: &[u8],
    top: u32,
    message: &[u8],
    member: u32,
    bytes: &[u8],
    out: &mut [u8],
) -> io::Result<()> {
    print::mark(out);
    let a = codec::set(table, top, message, member, bytes, out);
    writes::show_answer(to, a, out)?;
    Ok(())
}

// A call that removes a member, with an output of just these bytes.
pub fn remove_call<W: Write>(
    to: &mut W,
    table: &[u8],
    top: u32,
    message: &[u8],
    member: u32,
    out: &mut [u8],
) -> io::Result<()> {
    print::mark(out);
    let a = codec::remove(table, top, message, member, out);
    writes::show_answer(to, a, out)?;
    Ok(())
}
