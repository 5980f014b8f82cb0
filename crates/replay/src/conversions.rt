// Calls of the converter. The line is that of the writer.
use crate::{print, writes};
use std::io;
use std::io::Write;

// A call of the converter with an output of just these bytes.
pub fn convert_call<W: Write>(
    to: &mut W,
    table: &[u8],
    top: u32,
    message: &[u8],
    out: &mut [u8],
) -> io::Result<()> {
    print::mark(out);
    let a = codec::convert(table, top, message, out);
    writes::show_answer(to, a, out)?;
    Ok(())
}
