// Prints numbers and bytes, and marks lent bytes to see which a call changes.
use std::io;
use std::io::Write;

// Prints a number and a blank.
pub fn number<W: Write>(to: &mut W, n: u64) -> io::Result<()> {
    write!(to, "{n} ")
}

// Prints each four bytes as a number.
pub fn numbers<W: Write>(to: &mut W, s: &[u8]) -> io::Result<()> {
    let n = s.len() / 4;
    for i in 0..n {
        number(to, wire::int_at(s, 4 * i) as u64)?;
    }
    Ok(())
}

// Prints bytes in hex.
pub fn hex<W: Write>(to: &mut W, s: &[u8]) -> io::Result<()> {
    for b in s {
        write!(to, "{:02x}", *b)?;
    }
    Ok(())
}

// Sets each byte to the mark.
pub fn mark(s: &mut [u8]) {
    s.fill(170);
}

// Whether a byte is not the mark.
pub fn is_touched(s: &[u8]) -> bool {
    s.iter().any(|b| *b != 170)
}
