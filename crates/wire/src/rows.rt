// The one layout of a row: 12 bytes, its member row, a place and a length, four bytes each. The reader lists rows of this form, the view looks one up, the writer is given them.
ghost use Rattle.std.specs.Prelude.{◌≡◌, ◌+◌, ◌*◌, ◌≤◌, ◌<◌, length};
ghost use Rattle.encoding.specs.Message.{row_bytes};
ghost use Rattle.encoding.specs.Write.{row_at};
ghost use Rattle.wire.specs.Put.{put};
ghost use Rattle.wire.specs.Row.{as_row};

// The three numbers of a row.
#[derive(Clone, Copy)]
pub struct RowNumbers {
    pub member: usize,
    pub place: usize,
    pub len: usize,
}

// Puts the three numbers into the row's own 12 bytes.
fn put_numbers(row: &mut [u8], member: usize, place: usize, len: usize)
    requires { length row.old ≡ 12 }
    ensures { row.new ≡ row_bytes (record { member = member; place = place; len = len }) }
{
    crate::put_number(row, 0, 4, member);
    crate::put_number(row, 4, 4, place);
    crate::put_number(row, 8, 4, len);
}

// Puts row k into a list, where it fits.
pub fn put_row(out: &mut [u8], k: usize, member: usize, place: usize, len: usize)
    ensures { out.new ≡ put (12 * k) (row_bytes (record { member = member; place = place; len = len })) out.old }
{
    if k < out.len() / 12 {
        let a = 12 * k;
        put_numbers(&mut out[a..a + 12], member, place, len);
    }
}

// Row i of a list that ends before the row does; bytes past the end count as 0.
fn row_outside(rows: &[u8], i: usize) -> RowNumbers
    requires { i < 4294967296 }
    ensures { as_row result ≡ row_at rows.now i }
{
    RowNumbers {
        member: crate::int_at(rows, 12 * i),
        place: crate::int_at(rows, 12 * i + 4),
        len: crate::int_at(rows, 12 * i + 8),
    }
}

// Row i of a list, inside it. Its own 12 bytes are sliced once, so that the three reads need no further test.
pub fn row_in(rows: &[u8], i: usize) -> RowNumbers
    requires { 12 * i + 12 ≤ length rows.now }
    ensures { as_row result ≡ row_at rows.now i }
{
    let a = 12 * i;
    let row = &rows[a..a + 12];
    RowNumbers {
        member: crate::int_at(row, 0),
        place: crate::int_at(row, 4),
        len: crate::int_at(row, 8),
    }
}

// Row i of a list.
pub fn row_at(rows: &[u8], i: usize) -> RowNumbers
    requires { i < 4294967296 }
    ensures { as_row result ≡ row_at rows.now i }
{
    if rows.len() < 12 * i + 12 {
        return row_outside(rows, i);
    }
    row_in(rows, i)
}
