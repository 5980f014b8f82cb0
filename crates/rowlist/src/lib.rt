// The reader with a lent list of row records. It asks nothing of its input.
#![tactic(auto)]

ghost use Rattle.std.specs.Prelude.{◌≡◌, ◌+◌, ◌*◌, ◌/◌, ◌≤◌, min, length, map};
ghost use Rattle.encoding.specs.Message.{reading, reading_of};
ghost use Rattle.encoding.specs.Write.{row_at};
ghost use Rattle.rowlist.specs.Records.{record_of, records, overlay, rows_of};

use encoding::{Reading, Row};

// Row i of the row bytes.
fn row_at(bytes: &[u8], i: usize) -> Row
    requires { i * 12 + 12 ≤ length bytes.now }
    ensures { result ≡ record_of (row_at bytes.now i) }
{
    let at = 12 * i;
    Row {
        member: reading::low(wire::int_at(bytes, at)),
        place: reading::low(wire::int_at(bytes, at + 4)),
        length: reading::low(wire::int_at(bytes, at + 8)),
    }
}

// The number of rows to put: at most n, those in the row bytes, and those that the list has room for.
fn count(bytes: &[u8], n: usize, room: usize) -> usize
    ensures { result ≡ min (min n (length bytes.now / 12)) room }
{
    n.min(bytes.len() / 12).min(room)
}

// Puts the first n rows of the row bytes into the lent list; returns how many.
fn rows_of(bytes: &[u8], n: usize, rows: &mut [Row]) -> usize
    ensures { (result ≡ min (min n (length bytes.now / 12)) (length rows.old)) × (rows.new ≡ overlay (records bytes.now 0 (min n (length bytes.now / 12))) rows.old) }
{
    let m = count(bytes, n, rows.len());
    let mut i = 0;
    while i < m {
        rows[i] = row_at(bytes, i);
        i += 1;
    }
    m
}

// The row count of an answer; 0 on a refusal.
fn rows_given(answer: Reading) -> usize
    ensures { result ≡ rows_of answer }
{
    match answer {
        Reading::Accepted(_, _, n, _, _) => n as usize,
        Reading::Refused(_, _) => 0,
    }
}

// The reader's answer with room for so many rows, and the rows as bytes at the start of a list of 1,024 rows, the most that a message can have.
fn listing(table: &[u8], top: u32, message: &[u8], room: usize, list: &mut [u8]) -> Reading
    requires { length list.old ≡ 12288 }
    ensures { (result ≡ reading_of (reading table.now top message.now (12 * room))) × ((rows_of result ≤ 1024) × (records list.new 0 (rows_of result) ≡ map record_of (reading table.now top message.now (12 * room)).rows)) }
{
    prepare::byte_count(message);
    let n = 12 * room.min(1024);
    reading::read(table, top, message, &mut list[..n])
}

// The reader with a lent list of row records: the answer of `read` with room for as many rows, and the rows in the first elements, in order; every other element stays, and on a refusal every one.
// Wrong and ruled out: a reader that changes an element after the rows; one that exchanges place and length.
pub fn read_rows(table: &[u8], top: u32, message: &[u8], rows: &mut [Row]) -> Reading
    ensures { (result ≡ reading_of (reading table.now top message.now (12 * length rows.old))) × (rows.new ≡ overlay (map record_of (reading table.now top message.now (12 * length rows.old)).rows) rows.old) }
{
    let mut list = [0u8; 12288];
    let answer = listing(table, top, message, rows.len(), &mut list);
    rows_of(&list, rows_given(answer), rows);
    answer
}
