// Calls for many messages in one buffer. The line: the number of answers, the place, the seven numbers of each answer, the three of each row, and `touched` if a byte after the answers or after the rows changed.
ghost use Rattle.std.specs.Prelude.{◌≤◌};

use crate::print;
use std::io;
use std::io::Write;

// The rows of the first n answers of a list: the sum of their fifth numbers, at most a million.
fn row_count(answers: &[u8], n: usize) -> usize
    ensures { result ≤ 1000000 }
{
    let m = n.min(answers.len() / 28);
    let mut rows = 0;
    for i in 0..m {
        rows = (rows + wire::int_at(answers, 28 * i + 16)).min(1000000);
    }
    rows
}

// Prints the first n bytes of a list as numbers, and whether a byte after them changed.
fn show<W: Write>(to: &mut W, list: &[u8], n: usize) -> io::Result<()> {
    if n <= list.len() {
        print::numbers(to, &list[0..n])?;
        if print::is_touched(&list[n..]) {
            to.write_all(b"touched ")?;
        }
    }
    Ok(())
}

// A call with lists of just these bytes.
fn walk<W: Write>(
    to: &mut W,
    table: &[u8],
    top: u32,
    buffer: &[u8],
    answers: &mut [u8],
    rows: &mut [u8],
) -> io::Result<()> {
    print::mark(answers);
    print::mark(rows);
    let w = codec::night(table, top, buffer, answers, rows);
    let n = w.answers;
    print::number(to, n as u64)?;
    print::number(to, codec::place(buffer, answers.len()) as u64)?;
    if n <= answers.len() / 28 {
        show(to, answers, 28 * n)?;
        show(to, rows, 12 * row_count(answers, n))?;
    }
    to.write_all(b"\n")?;
    Ok(())
}

// A call with these answers and a list of rows of so many bytes.
pub fn night_call<W: Write>(
    to: &mut W,
    table: &[u8],
    top: u32,
    buffer: &[u8],
    answers: &mut [u8],
    room: usize,
) -> io::Result<()> {
    let mut rows = [0u8; 65536];
    if room <= rows.len() {
        walk(to, table, top, buffer, answers, &mut rows[0..room])?;
    }
    Ok(())
}
