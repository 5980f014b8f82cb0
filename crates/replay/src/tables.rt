// Checks of a table. The line: the number of the first broken rule and its place; 0 0 if the table breaks none, and then the form of an optional of each of its rows as a letter, `a` for number 0.
// One recorded table has 250 struct rows, each with four members of the row before: no call may walk the trees of its types.
use crate::print;
use encoding::Verdict;
use std::io;
use std::io::Write;

// Prints a form as a letter.
fn letter<W: Write>(to: &mut W, form: usize) -> io::Result<()> {
    if form < 11 {
        to.write_all(&[97 + form as u8])?;
    }
    Ok(())
}

// Prints the form of each row of a table.
fn forms<W: Write>(to: &mut W, table: &[u8]) -> io::Result<()> {
    let mut shapes = [10u8; 256];
    shapes::fill(table, table::types_at(table), &mut shapes);
    let n = table::rows(table);
    for t in 0..n {
        letter(to, shapes::form(&shapes, t))?;
    }
    Ok(())
}

// Checks a table.
pub fn check_call<W: Write>(to: &mut W, table: &[u8]) -> io::Result<()> {
    let v = codec::check(table);
    match v {
        Verdict::Sound => {
            to.write_all(b"0 0 ")?;
            forms(to, table)?;
        }
        Verdict::Broken(rule, place) => {
            print::number(to, rule as u64)?;
            write!(to, "{place}")?;
        }
    }
    to.write_all(b"\n")?;
    Ok(())
}
