// Calls of the reader with a list of eight row records. The line: the three numbers of every element; elements that the call leaves alone are zeros, as they were.
ghost use Rattle.std.specs.Prelude.{◌≡◌, replicate, map};
ghost use Rattle.encoding.specs.Message.{reading};
ghost use Rattle.rowlist.specs.Records.{record_of, overlay, blank};

use crate::print;
use encoding::Row;
use std::io;
use std::io::Write;

// What the reader leaves in a list of eight blank rows.
fn first_rows(table: &[u8], top: u32, message: &[u8]) -> [Row; 8]
    ensures { result ≡ overlay (map record_of (reading table.now top message.now 96).rows) (replicate 8 blank) }
{
    let mut list = [Row {
        member: 0,
        place: 0,
        length: 0,
    }; 8];
    codec::read_rows(table, top, message, &mut list);
    list
}

// Prints a row.
fn show<W: Write>(to: &mut W, r: Row) -> io::Result<()> {
    print::number(to, r.member as u64)?;
    print::number(to, r.place as u64)?;
    print::number(to, r.length as u64)?;
    Ok(())
}

// Prints every element.
fn show_rows<W: Write>(to: &mut W, rows: [Row; 8]) -> io::Result<()> {
    for row in rows {
        show(to, row)?;
    }
    to.write_all(b"\n")?;
    Ok(())
}

// A call of the reader with eight row records.
pub fn records_call<W: Write>(
    to: &mut W,
    table: &[u8],
    top: u32,
    message: &[u8],
) -> io::Result<()> {
    show_rows(to, first_rows(table, top, message))?;
    Ok(())
}
