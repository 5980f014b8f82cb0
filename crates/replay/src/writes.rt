// Calls of the writer. The line: the refusal's number, its place and the message's length, then the message in hex, and `touched` if a byte after it changed.
use crate::print;
use encoding::Writing;
use std::io;
use std::io::Write;

// Prints the first n bytes of the output, and whether it was touched after them.
pub fn show<W: Write>(to: &mut W, out: &[u8], n: usize) -> io::Result<()> {
    if n <= out.len() {
        print::hex(to, &out[0..n])?;
        if print::is_touched(&out[n..]) {
            to.write_all(b" touched")?;
        }
    }
    to.write_all(b"\n")?;
    Ok(())
}

// Prints an answer and the message in its output.
pub fn show_answer<W: Write>(to: &mut W, a: Writing, out: &[u8]) -> io::Result<()> {
    match a {
        Writing::Written(n) => {
            print::number(to, 0)?;
            print::number(to, 0)?;
            print::number(to, n as u64)?;
            show(to, out, n as usize)?;
        }
        Writing::Rejected(c, p) => {
            print::number(to, c as u64)?;
            print::number(to, p as u64)?;
            print::number(to, 0)?;
            show(to, out, 0)?;
        }
    }
    Ok(())
}

// A call of the writer with an output of just these bytes.
pub fn write_call<W: Write>(
    to: &mut W,
    table: &[u8],
    top: u32,
    format: u32,
    count: u32,
    rows: &[u8],
    buffer: &[u8],
    out: &mut [u8],
) -> io::Result<()> {
    print::mark(out);
    let a = codec::write(table, top, format, count, rows, buffer, out);
    show_answer(to, a, out)?;
    Ok(())
}
