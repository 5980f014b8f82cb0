// Two tables compared. The line: the refusal's number and place, the number of differences, 1 if the new table extends the old one, then the five numbers of each difference, and `touched` if a byte of the lent list after them changed.
use crate::print;
use std::io;
use std::io::Write;

// Prints what a list of n differences holds.
fn show<W: Write>(to: &mut W, list: &[u8], n: usize) -> io::Result<()> {
    if n <= list.len() / 20 {
        print::numbers(to, &list[0..20 * n])?;
        if print::is_touched(&list[20 * n..]) {
            to.write_all(b"touched")?;
        }
    }
    Ok(())
}

// Compares two tables with a lent list of just these bytes.
pub fn compare_call<W: Write>(
    to: &mut W,
    old: &[u8],
    t: usize,
    new: &[u8],
    u: usize,
    list: &mut [u8],
) -> io::Result<()> {
    print::mark(list);
    let c = compare::compare(old, t, new, u, list);
    print::number(to, c.refusal as u64)?;
    print::number(to, c.place as u64)?;
    print::number(to, c.count as u64)?;
    print::number(to, c.extends as u64)?;
    show(to, list, c.count as usize)?;
    to.write_all(b"\n")?;
    Ok(())
}
