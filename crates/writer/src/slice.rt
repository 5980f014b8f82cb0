// Puts the rows of an owner, and its slice. The rows were checked before. `old` says that the encoding is 1.0: its slices are pairs of type ID and size with data.
ghost use Rattle.std.specs.Prelude.{◌≡◌, true, ◌+◌, ◌*◌, ◌≤◌, ◌<◌, length};
ghost use Rattle.encoding.specs.Result.{pick};
ghost use Rattle.encoding.specs.Number.{string_bytes};
ghost use Rattle.encoding.specs.Table.{types_at, members_at, names_at, members, field, name_of};
ghost use Rattle.shapes.specs.Shapes.{shapes_of};
ghost use Rattle.pieces.specs.Puts.{Puts};
ghost use Rattle.pieces.specs.Cursors.{may_at};
ghost use Rattle.writer.specs.Slices.{IsOwner, front_field, flags_of, front_of, end_mark, RequiredsPut, RowsPut, PartPut};

use crate::{Laid, Owner, laid_of};
use pieces::piece;

// Puts the rows of the required members of owner o, from row `from` on. Its member rows are the b rows from a on.
// Rows whose parts follow one another in the buffer are put by one copy: `len` bytes from `place` on are still to be put.
fn put_requireds(
    table: &[u8],
    first: usize,
    out: &mut [u8],
    start: usize,
    o: usize,
    a: usize,
    b: usize,
    from: usize,
    old: bool,
    count: usize,
    rows: &[u8],
    buffer: &[u8],
) -> Laid
    requires first_value { (first ≡ members_at table.now) × (first < 1048576) }
    requires a_value { (a ≡ field table.now o 0) × (b ≡ field table.now o 1) × (a < 65536) × (b < 65536) }
    requires start_bound { (start ≤ 576460752303423488) × (from ≤ count) × (count ≤ 4294967296) × (length buffer.now ≤ 65536) × (12 * count ≤ length rows.now) }
    ensures { RequiredsPut table.now old rows.now buffer.now true count o from start out.old out.new result }
{
    let mut at = start;
    let mut i = from;
    let mut place = 0;
    let mut len = 0;
    for k in 0..b {
        if table::mark_from(table, first, a + k) != 0 {
            continue;
        }
        if count <= i {
            return laid_of(at, i, false, 20);
        }
        let row = wire::rows::row_in(rows, i);
        if row.member != a + k {
            return laid_of(at, i, false, 20);
        }
        if !wire::fits(buffer.len(), row.place, row.len) {
            return laid_of(at, i, false, 20);
        }
        i += 1;
        if row.place == place + len {
            len += row.len;
            continue;
        }
        at = piece::put_content(out, at, place, len, buffer);
        place = row.place;
        len = row.len;
    }
    let end = piece::put_content(out, at, place, len, buffer);
    laid_of(end, i, false, 0)
}

// Puts the rows of optional members of owner o, from row `from` on.
fn put_optionals(
    table: &[u8],
    shapes: &[u8; 256],
    first: usize,
    all: usize,
    out: &mut [u8],
    start: usize,
    o: usize,
    a: usize,
    b: usize,
    from: usize,
    old: bool,
    count: usize,
    rows: &[u8],
    buffer: &[u8],
) -> Laid
    requires shapes_value { shapes.now ≡ shapes_of table.now }
    requires first_value { (first ≡ members_at table.now) × (first < 1048576) × (all ≡ members table.now) }
    requires a_value { (a ≡ field table.now o 0) × (b ≡ field table.now o 1) × (a < 65536) × (b < 65536) }
    requires start_bound { (start ≤ 864691128455135232) × (from ≤ count) × (count ≤ 4294967296) × (length buffer.now ≤ 65536) × (12 * count ≤ length rows.now) }
    ensures { RowsPut table.now old rows.now buffer.now true count (may_at table.now o 0) from start out.old out.new result }
{
    let mut at = start;
    let mut least = 0;
    let mut optionals = false;
    for i in from..count {
        let answer = match piece::put_may(
            table, shapes, first, all, out, at, o, a, b, least, old, rows, i, buffer,
        ) {
            Ok(answer) => answer,
            Err(number) => {
                return laid_of(at, i, optionals, number);
            }
        };
        match answer {
            Some(placed) => {
                at = placed.end;
                least = placed.tag + 1;
                optionals = true;
            }
            None => {
                return laid_of(at, i, optionals, 0);
            }
        }
    }
    laid_of(at, count, optionals, 0)
}

// How many bytes the type ID of owner o takes.
pub fn id_len(table: &[u8], begin: usize, o: usize) -> usize
    requires { begin ≡ types_at table.now }
    ensures { (result ≡ length (string_bytes (name_of table.now o))) × (result ≤ 65540) }
{
    let n = table::naming::name_length(table, begin, o);
    wire::size_len(n) + n
}

// Owner o. The names begin at `labels`.
pub fn owner_at(table: &[u8], begin: usize, labels: usize, o: usize) -> Owner
    requires begin_value { begin ≡ types_at table.now }
    requires labels_value { (labels ≡ names_at table.now) × (labels < 2097152) }
    ensures { IsOwner table.now o result }
{
    let row = table::type_row(table, begin, o);
    let name = table::naming::start_of(table, labels, row, o);
    Owner {
        a: row.a,
        b: row.b,
        up: table::chain::base_of(table, row, o),
        name: name,
        long: table::naming::length_of(table, name, row, o),
    }
}

// Puts the type ID of owner o and returns its end.
fn put_id(table: &[u8], out: &mut [u8], at: usize, o: usize, owner: Owner) -> usize
    requires owner { IsOwner table.now o owner }
    requires at_bound { at ≤ 1152921504606846976 }
    ensures { Puts at (string_bytes (name_of table.now o)) out.old out.new result × (result ≤ at + 65540) }
{
    let n = owner.long;
    let k = wire::size_len(n);
    wire::put_size(out, at, n);
    wire::put_part(out, at + k, table, owner.name, n);
    at + k + n
}

// Puts byte 255 after the optionals of a slice, if it has any, and returns its end.
fn put_end(out: &mut [u8], at: usize, optionals: bool) -> usize
    requires { at ≤ 864691128455135232 }
    ensures { Puts at (end_mark optionals) out.old out.new result × (result ≤ at + 1) }
{
    if optionals {
        wire::put_number(out, at, 1, 255);
        return at + 1;
    }
    at
}

// Puts the flags of a slice, which 1.0 has not, and returns their end.
fn put_flags(out: &mut [u8], at: usize, old: bool, optionals: bool, last: bool) -> usize
    requires { at ≤ 576460752303423488 }
    ensures { Puts at (flags_of old optionals last) out.old out.new result × (result ≤ at + 1) }
{
    if old {
        return at;
    }
    wire::put_number(out, at, 1, wire::slice_flags(true, optionals, true, last));
    at + 1
}

// Puts what comes before a slice's data of n bytes and returns its end: flags, type ID and size, in 1.0 type ID and size.
fn put_front_as(
    table: &[u8],
    out: &mut [u8],
    at: usize,
    o: usize,
    owner: Owner,
    old: bool,
    optionals: bool,
    last: bool,
    n: usize,
) -> usize
    requires owner { IsOwner table.now o owner }
    requires at_bound { (at ≤ 576460752303423488) × (n ≤ 576460752303423488) }
    ensures { Puts at (front_of table.now o old optionals last n) out.old out.new result × (result ≤ at + 65545) }
{
    let a = put_flags(out, at, old, optionals, last);
    let b = put_id(table, out, a, o, owner);
    wire::put_number(out, b, 4, 4 + n);
    b + 4
}

// The same in 1.1, of an owner that is looked up.
pub fn put_front(
    table: &[u8],
    begin: usize,
    out: &mut [u8],
    at: usize,
    o: usize,
    optionals: bool,
    last: bool,
    n: usize,
) -> usize
    requires begin_value { begin ≡ types_at table.now }
    requires at_bound { (at ≤ 576460752303423488) × (n ≤ 576460752303423488) }
    ensures { Puts at (front_field table.now o optionals last n) out.old out.new result × (result ≤ at + 65545) }
{
    let owner = owner_at(table, begin, table::names_at(table, begin), o);
    put_front_as(table, out, at, o, owner, false, optionals, last, n)
}

// How many bytes before a slice's data are not those of its type ID: size and flags, in 1.0 the size alone.
fn bare_len(old: bool) -> usize
    ensures { (result ≡ pick old 4 5) × (result ≤ 5) }
{
    if old {
        return 4;
    }
    5
}

// How many bytes come before the data of owner o's slice; a parameter list has none.
pub fn front_len(table: &[u8], o: usize, owner: Owner, list: bool, old: bool) -> usize
    requires { IsOwner table.now o owner }
    ensures { (result ≡ pick list 0 (pick old 4 5 + length (string_bytes (name_of table.now o)))) × (result ≤ 65545) }
{
    if list {
        return 0;
    }
    bare_len(old) + (wire::size_len(owner.long) + owner.long)
}

// Puts the slice of owner o: the data first, then what comes before them; of a parameter list the rows alone.
pub fn put_part(
    table: &[u8],
    shapes: &[u8; 256],
    first: usize,
    all: usize,
    out: &mut [u8],
    at: usize,
    o: usize,
    owner: Owner,
    list: bool,
    last: bool,
    from: usize,
    old: bool,
    count: usize,
    rows: &[u8],
    buffer: &[u8],
) -> Laid
    requires shapes_value { shapes.now ≡ shapes_of table.now }
    requires first_value { (first ≡ members_at table.now) × (first < 1048576) × (all ≡ members table.now) }
    requires owner { IsOwner table.now o owner }
    requires at_bound { (at ≤ 288230376151711744) × (from ≤ count) × (count ≤ 4294967296) × (length buffer.now ≤ 65536) × (12 * count ≤ length rows.now) }
    ensures { PartPut table.now old rows.now buffer.now true count list last o from at out.old out.new result }
{
    let start = at + front_len(table, o, owner, list, old);
    let required = put_requireds(
        table, first, out, start, o, owner.a, owner.b, from, old, count, rows, buffer,
    );
    if required.fault != 0 {
        return required;
    }
    let d = put_optionals(
        table,
        shapes,
        first,
        all,
        out,
        required.end,
        o,
        owner.a,
        owner.b,
        required.row,
        old,
        count,
        rows,
        buffer,
    );
    if d.fault != 0 {
        return d;
    }
    if list {
        return d;
    }
    let e = put_end(out, d.end, d.optionals);
    put_front_as(table, out, at, o, owner, old, d.optionals, last, e - start);
    laid_of(e, d.row, d.optionals, 0)
}
