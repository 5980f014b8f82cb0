// Calls of the reader and of the member view.
// The reader's line: the refusal's number, its place, the first known type, the format, the row count, the optionals and the slices skipped, then each row's three numbers, `touched` if a byte after the rows changed,
// and `again` if an accepted message with nothing skipped, written again from its own rows in its own format, is the same message. The view's line: the bytes returned, in hex.
use crate::print;
use encoding::{Reading, Writing};
use std::io;
use std::io::Write;

// Prints the first n rows of a list, and whether it was touched after them.
fn show_rows<W: Write>(to: &mut W, rows: &[u8], n: usize) -> io::Result<()> {
    if n <= rows.len() / 12 {
        let e = 12 * n;
        print::numbers(to, &rows[0..e])?;
        if print::is_touched(&rows[e..]) {
            to.write_all(b"touched ")?;
        }
    }
    Ok(())
}

// Prints an answer and the rows of its list.
fn show<W: Write>(to: &mut W, a: Reading, rows: &[u8]) -> io::Result<()> {
    match a {
        Reading::Accepted(first, format, n, optionals, slices) => {
            print::number(to, 0)?;
            print::number(to, 0)?;
            print::number(to, first as u64)?;
            print::number(to, format as u64)?;
            print::number(to, n as u64)?;
            print::number(to, optionals as u64)?;
            print::number(to, slices as u64)?;
            show_rows(to, rows, n as usize)?;
        }
        Reading::Refused(c, p) => {
            print::number(to, c as u64)?;
            print::number(to, p as u64)?;
            to.write_all(b"0 0 0 0 0 ")?;
            show_rows(to, rows, 0)?;
        }
    }
    Ok(())
}

// Whether the message written is this one.
fn is_written(w: Writing, message: &[u8], out: &[u8]) -> bool {
    match w {
        Writing::Written(k) => {
            let n = k as usize;
            if n <= out.len() {
                return table::naming::same(message, &out[0..n]);
            }
            false
        }
        Writing::Rejected(c, p) => false,
    }
}

// Writes a message again from its own rows, as the type and in the format read.
fn again<W: Write>(
    to: &mut W,
    table: &[u8],
    first: u32,
    format: u32,
    n: u32,
    message: &[u8],
    rows: &[u8],
) -> io::Result<()> {
    let mut out = [0u8; 65536];
    let w = codec::write(table, first, format, n, rows, message, &mut out);
    if is_written(w, message, &out) {
        to.write_all(b"again")?;
    }
    Ok(())
}

// Writes an accepted message with nothing skipped again.
fn show_again<W: Write>(
    to: &mut W,
    a: Reading,
    table: &[u8],
    message: &[u8],
    rows: &[u8],
) -> io::Result<()> {
    match a {
        Reading::Accepted(first, format, n, optionals, slices) => {
            if optionals == 0 {
                if slices == 0 {
                    again(to, table, first, format, n, message, rows)?;
                }
            }
        }
        Reading::Refused(c, p) => {}
    }
    Ok(())
}

// A call of the reader with a list of just these bytes.
pub fn read_call<W: Write>(
    to: &mut W,
    table: &[u8],
    top: u32,
    message: &[u8],
    rows: &mut [u8],
) -> io::Result<()> {
    print::mark(rows);
    let a = codec::read(table, top, message, rows);
    show(to, a, rows)?;
    show_again(to, a, table, message, rows)?;
    to.write_all(b"\n")?;
    Ok(())
}

// A call of the member view.
pub fn view_call<'a, 't, W: Write>(
    to: &mut W,
    table: &'t [u8],
    top: u32,
    message: &'a [u8],
    member: u32,
    fallback: &'a [u8],
) -> io::Result<()> {
    let seen = codec::member(table, top, message, member, fallback);
    print::hex(to, seen)?;
    to.write_all(b"\n")?;
    Ok(())
}
