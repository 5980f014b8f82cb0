// Finds the member of a row, checks the row's bytes and measures its piece. `old` says that the encoding is 1.0, which has other enums and proxies.
// `begin` is where the table's type rows begin, `first` where its member rows begin, `all` how many there are.
ghost use Rattle.std.specs.Prelude.{◌≡◌, Ok, true, false, [], ℕ, ◌+◌, ◌*◌, ◌≤◌, ◌<◌, length};
ghost use Rattle.encoding.specs.Table.{types_at, members_at, members, member_type, member_ty, field, trees, ty_of};
ghost use Rattle.encoding.specs.Old.{type_as};
ghost use Rattle.shapes.specs.Shapes.{shapes_of};
ghost use Rattle.wire.specs.Row.{as_row};
ghost use Rattle.pieces.specs.Cursors.{due_at, IsDue, OptionalIn};
ghost use Rattle.pieces.specs.Judged.{part_form};
ghost use Rattle.pieces.specs.Pieces.{header_field, length_field, RowLaid, DuePut, MayPut};

use crate::{Placed, Wanted};
use wire::rows::RowNumbers;

// The row of a member's type, `of` if there is such a member; else 256, a row without a type tree.
fn type_of(table: &[u8], all: usize, m: usize, of: usize) -> usize
    requires { (all ≡ members table.now) × (of ≡ member_type table.now m) }
    ensures { ty_of table.now result ≡ member_ty table.now (trees table.now) m }
{
    if m < all { of } else { 256 }
}

// The optional member that row m is to owner o, all of whose required members are given; its member rows are the b rows from a on, and the least tag that may come is `least`.
pub fn optional_at(
    table: &[u8],
    first: usize,
    all: usize,
    o: usize,
    a: usize,
    b: usize,
    least: usize,
    m: usize,
) -> Option<Wanted>
    requires first_value { (first ≡ members_at table.now) × (first < 1048576) × (all ≡ members table.now) }
    requires a_value { (a ≡ field table.now o 0) × (b ≡ field table.now o 1) × (a < 65536) × (b < 65536) }
    ensures { OptionalIn table.now o least m result }
{
    if m < a {
        return None;
    }
    if a + b <= m {
        return None;
    }
    let member = table::member_row_flat(table, first, m);
    if member.mark == 0 {
        return None;
    }
    if member.tag < least {
        return None;
    }
    Some(Wanted {
        of: type_of(table, all, m, member.of),
        tag: member.tag,
    })
}

// 20 if a row's part lies outside the buffer, 21 if it is not exactly a value of type row t, else 0.
fn part_form(
    table: &[u8],
    begin: usize,
    shapes: &[u8; 256],
    t: usize,
    old: bool,
    row: RowNumbers,
    buffer: &[u8],
) -> usize
    requires begin_value { begin ≡ types_at table.now }
    requires shapes_value { shapes.now ≡ shapes_of table.now }
    requires buffer_len_bound { length buffer.now ≤ 65536 }
    ensures { result ≡ part_form buffer.now (as_row row) (type_as old (ty_of table.now t)) }
{
    let place = row.place;
    let len = row.len;
    if wire::fits(buffer.len(), place, len) {
        let e = place + len;
        if value::exact_value(table, begin, shapes, t, &buffer[place..e], old) {
            return 0;
        }
        return 21;
    }
    20
}

// A row's part lies in the buffer and is exactly a value of type row t, and no call is needed to see that.
fn is_right(
    table: &[u8],
    begin: usize,
    shapes: &[u8; 256],
    t: usize,
    old: bool,
    row: RowNumbers,
    buffer: &[u8],
) -> bool
    requires begin_value { begin ≡ types_at table.now }
    requires shapes_value { shapes.now ≡ shapes_of table.now }
    requires buffer_len_bound { length buffer.now ≤ 65536 }
    ensures { result ≡ true → 0 ≡ part_form buffer.now (as_row row) (type_as old (ty_of table.now t)) }
{
    let place = row.place;
    let len = row.len;
    if wire::fits(buffer.len(), place, len) {
        let e = place + len;
        let n = value::quick_member(table, begin, shapes, t, &buffer[place..e], old);
        if 0 < n {
            return n == len;
        }
    }
    false
}

// How many bytes the header of an optional takes.
fn header_len(tag: usize) -> usize
    ensures { (result ≡ length (header_field tag 0)) × (result ≤ 6) }
{
    if tag < 30 {
        return 1;
    }
    1 + wire::size_len(tag)
}

// How many bytes the length field of a form takes before n bytes.
fn length_len(form: usize, n: usize) -> usize
    ensures { (result ≡ length (length_field form n)) × (result ≤ 5) }
{
    if form < 9 {
        return 0;
    }
    if form == 9 {
        return wire::size_len(n);
    }
    4
}

// Checks row i, 20 then 21, as the required member m that is due of owner o, and measures it: the end of its bytes, or the number of its refusal. `of` is the row of the member's type.
pub fn due(
    table: &[u8],
    begin: usize,
    shapes: &[u8; 256],
    all: usize,
    at: usize,
    o: usize,
    k: usize,
    m: usize,
    of: usize,
    old: bool,
    rows: &[u8],
    i: usize,
    buffer: &[u8],
) -> Result<usize, usize>
    requires begin_value { begin ≡ types_at table.now }
    requires shapes_value { shapes.now ≡ shapes_of table.now }
    requires all_value { (all ≡ members table.now) × (of ≡ member_type table.now m) × IsDue table.now o k m }
    requires at_bound { (at ≤ 1152921504606846976) × (12 * i + 12 ≤ length rows.now) × (length buffer.now ≤ 65536) }
    ensures { DuePut table.now old rows.now buffer.now false o k i at [] [] result }
{
    let row = wire::rows::row_in(rows, i);
    if row.member != m {
        return Err(20);
    }
    let t = type_of(table, all, m, of);
    let fault = part_form(table, begin, shapes, t, old, row, buffer);
    if fault != 0 {
        return Err(fault);
    }
    Ok(at + row.len)
}

// Measures row i as the required member m that is due of owner o, if no call is needed to see that it is right; any other row is told to be wrong.
pub fn quick_due(
    table: &[u8],
    begin: usize,
    shapes: &[u8; 256],
    at: usize,
    o: usize,
    k: usize,
    m: usize,
    of: usize,
    old: bool,
    rows: &[u8],
    i: usize,
    buffer: &[u8],
) -> Result<usize, usize>
    requires begin_value { begin ≡ types_at table.now }
    requires shapes_value { shapes.now ≡ shapes_of table.now }
    requires m_bound { (m < members table.now) × (of ≡ member_type table.now m) × IsDue table.now o k m }
    requires at_bound { (at ≤ 1152921504606846976) × (12 * i + 12 ≤ length rows.now) × (length buffer.now ≤ 65536) }
    ensures { (end : ℕ) → result ≡ Ok end → RowLaid table.now old rows.now buffer.now false (due_at o k) i at [] [] (due_at o (k + 1)) end false }
{
    let row = wire::rows::row_in(rows, i);
    if row.member != m {
        return Err(20);
    }
    if is_right(table, begin, shapes, of, old, row, buffer) {
        return Ok(at + row.len);
    }
    Err(21)
}

// Checks row i, 20 then 21, as an optional member of owner o, and measures it; none where it is no row of this owner. Or the number of its refusal.
pub fn may(
    table: &[u8],
    begin: usize,
    shapes: &[u8; 256],
    first: usize,
    all: usize,
    at: usize,
    o: usize,
    a: usize,
    b: usize,
    least: usize,
    old: bool,
    rows: &[u8],
    i: usize,
    buffer: &[u8],
) -> Result<Option<Placed>, usize>
    requires begin_value { begin ≡ types_at table.now }
    requires shapes_value { shapes.now ≡ shapes_of table.now }
    requires first_value { (first ≡ members_at table.now) × (first < 1048576) × (all ≡ members table.now) }
    requires a_value { (a ≡ field table.now o 0) × (b ≡ field table.now o 1) × (a < 65536) × (b < 65536) }
    requires at_bound { (at ≤ 1152921504606846976) × (12 * i + 12 ≤ length rows.now) × (length buffer.now ≤ 65536) }
    ensures { MayPut table.now old rows.now buffer.now false o least i at [] [] result }
{
    let row = wire::rows::row_in(rows, i);
    let f = optional_at(table, first, all, o, a, b, least, row.member);
    match f {
        Some(wanted) => {
            let fault = part_form(table, begin, shapes, wanted.of, old, row, buffer);
            if fault != 0 {
                return Err(fault);
            }
            let h = header_len(wanted.tag);
            let l = length_len(shapes::form(shapes, wanted.of), row.len);
            Ok(Some(Placed {
                end: at + h + l + row.len,
                tag: wanted.tag,
            }))
        }
        None => Ok(None),
    }
}
