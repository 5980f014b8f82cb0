// Puts the member of a row: its header, its length field, its bytes. The row was checked before; `old` says that it was for encoding 1.0.
ghost use Rattle.std.specs.Prelude.{◌≡◌, true, ◌+◌, ◌*◌, ◌≤◌, ◌<◌, length, take, drop};
ghost use Rattle.encoding.specs.Table.{members_at, members, field};
ghost use Rattle.encoding.specs.Write.{part_of};
ghost use Rattle.shapes.specs.Shapes.{shapes_of};
ghost use Rattle.wire.specs.Put.{put};
ghost use Rattle.wire.specs.Row.{as_row};
ghost use Rattle.pieces.specs.Puts.{Puts};
ghost use Rattle.pieces.specs.Pieces.{header_field, length_field, optional_field, MayPut};

use crate::{Placed, judge, rows};
use wire::rows::RowNumbers;

// Puts a long part of the buffer and returns its end: the bytes up to a place that is a multiple of 64 by themselves, then the others.
// The loop that copies these stores sixteen bytes at a time; from such a place on no store crosses a line of the cache, where the output begins at a multiple of 16.
fn put_long(out: &mut [u8], at: usize, buffer: &[u8], place: usize, n: usize) -> usize
    requires { (at ≤ 1152921504606847000) × (64 ≤ n) × (place + n ≤ length buffer.now) × (length buffer.now ≤ 65536) }
    ensures { Puts at (take n (drop place buffer.now)) out.old out.new result × (result ≤ at + length buffer.now) }
{
    let lead = 64 - at % 64;
    wire::put_part(out, at, buffer, place, lead);
    wire::put_part(out, at + lead, buffer, place + lead, n - lead);
    at + n
}

// Puts the bytes of a row, `len` bytes of the buffer from `place` on, and returns their end.
pub fn put_content(out: &mut [u8], at: usize, place: usize, len: usize, buffer: &[u8]) -> usize
    requires { (at ≤ 1152921504606847000) × (length buffer.now ≤ 65536) }
    ensures { Puts at (take len (drop place buffer.now)) out.old out.new result × (result ≤ at + length buffer.now) }
{
    if 1024 <= len {
        if wire::fits(buffer.len(), place, len) {
            return put_long(out, at, buffer, place, len);
        }
    }
    wire::put_part(out, at, buffer, place, len);
    at + rows::part_len(place, len, buffer)
}

// Puts the byte of the buffer at `place`.
fn put_one(out: &mut [u8], at: usize, place: usize, buffer: &[u8])
    requires { (at + 1 ≤ length out.old) × (place + 1 ≤ length buffer.now) }
    ensures { out.new ≡ put at (take 1 (drop place buffer.now)) out.old }
{
    out[at] = buffer[place];
}

// Puts two bytes of the buffer from `place` on; all are loaded before the first is stored, so that one load and one store do it.
fn put_two(out: &mut [u8], at: usize, place: usize, buffer: &[u8])
    requires { (at + 2 ≤ length out.old) × (place + 2 ≤ length buffer.now) }
    ensures { out.new ≡ put at (take 2 (drop place buffer.now)) out.old }
{
    let b0 = buffer[place];
    let b1 = buffer[place + 1];
    out[at] = b0;
    out[at + 1] = b1;
}

// Puts four bytes of the buffer from `place` on, in the same way.
fn put_four(out: &mut [u8], at: usize, place: usize, buffer: &[u8])
    requires { (at + 4 ≤ length out.old) × (place + 4 ≤ length buffer.now) }
    ensures { out.new ≡ put at (take 4 (drop place buffer.now)) out.old }
{
    let b0 = buffer[place];
    let b1 = buffer[place + 1];
    let b2 = buffer[place + 2];
    let b3 = buffer[place + 3];
    out[at] = b0;
    out[at + 1] = b1;
    out[at + 2] = b2;
    out[at + 3] = b3;
}

// Puts eight bytes of the buffer from `place` on, in the same way.
fn put_eight(out: &mut [u8], at: usize, place: usize, buffer: &[u8])
    requires { (at + 8 ≤ length out.old) × (place + 8 ≤ length buffer.now) }
    ensures { out.new ≡ put at (take 8 (drop place buffer.now)) out.old }
{
    let b0 = buffer[place];
    let b1 = buffer[place + 1];
    let b2 = buffer[place + 2];
    let b3 = buffer[place + 3];
    let b4 = buffer[place + 4];
    let b5 = buffer[place + 5];
    let b6 = buffer[place + 6];
    let b7 = buffer[place + 7];
    out[at] = b0;
    out[at + 1] = b1;
    out[at + 2] = b2;
    out[at + 3] = b3;
    out[at + 4] = b4;
    out[at + 5] = b5;
    out[at + 6] = b6;
    out[at + 7] = b7;
}

// The same as `put_content`; no byte and one, two, four and eight are put without a loop. The tests by `<` keep the compiler from a table of jumps.
fn put_value(out: &mut [u8], at: usize, place: usize, len: usize, buffer: &[u8]) -> usize
    requires { (at ≤ 1152921504606847000) × (length buffer.now ≤ 65536) }
    ensures { Puts at (take len (drop place buffer.now)) out.old out.new result × (result ≤ at + length buffer.now) }
{
    if wire::fits(buffer.len(), place, len) {
        if wire::fits(out.len(), at, len) {
            if len < 3 {
                if len == 1 {
                    put_one(out, at, place, buffer);
                    return at + 1;
                }
                if len == 2 {
                    put_two(out, at, place, buffer);
                    return at + 2;
                }
                return at;
            }
            if len == 4 {
                put_four(out, at, place, buffer);
                return at + 4;
            }
            if len == 8 {
                put_eight(out, at, place, buffer);
                return at + 8;
            }
        }
    }
    put_content(out, at, place, len, buffer)
}

// Puts an optional's header and returns its end.
fn put_header(out: &mut [u8], at: usize, tag: usize, kind: usize) -> usize
    requires { (at ≤ 1152921504606846976) × (kind < 8) }
    ensures { Puts at (header_field tag kind) out.old out.new result × (result ≤ at + 6) }
{
    if tag < 30 {
        wire::put_number(out, at, 1, wire::header_bits(tag, kind));
        return at + 1;
    }
    wire::put_number(out, at, 1, wire::header_bits(30, kind));
    wire::put_size(out, at + 1, tag);
    at + 1 + wire::size_len(tag)
}

// Puts the length field of a form, if it has one, and returns its end.
fn put_length(out: &mut [u8], at: usize, form: usize, n: usize) -> usize
    requires { at ≤ 1152921504606846990 }
    ensures { Puts at (length_field form n) out.old out.new result × (result ≤ at + 5) }
{
    if form < 9 {
        return at;
    }
    if form == 9 {
        wire::put_size(out, at, n);
        return at + wire::size_len(n);
    }
    wire::put_number(out, at, 4, n);
    at + 4
}

// Puts a row as an optional of a tag and form and returns its end.
pub fn put_optional(
    out: &mut [u8],
    at: usize,
    tag: usize,
    form: usize,
    row: RowNumbers,
    buffer: &[u8],
) -> usize
    requires { (at ≤ 1152921504606846976) × (length buffer.now ≤ 65536) }
    ensures { Puts at (optional_field tag form (part_of buffer.now (as_row row))) out.old out.new result × (result ≤ at + 11 + length buffer.now) }
{
    let a = put_header(out, at, tag, wire::form_bits(form));
    let b = put_length(out, a, form, rows::part_len(row.place, row.len, buffer));
    put_content(out, b, row.place, row.len, buffer)
}

// Puts row i as an optional member of owner o; none where it is no row of this owner. The number of a refusal is never given.
pub fn put_may(
    table: &[u8],
    shapes: &[u8; 256],
    first: usize,
    all: usize,
    out: &mut [u8],
    at: usize,
    o: usize,
    a: usize,
    b: usize,
    least: usize,
    old: bool,
    rows: &[u8],
    i: usize,
    buffer: &[u8],
) -> Result<Option<Placed>, usize>
    requires shapes_value { shapes.now ≡ shapes_of table.now }
    requires first_value { (first ≡ members_at table.now) × (first < 1048576) × (all ≡ members table.now) }
    requires a_value { (a ≡ field table.now o 0) × (b ≡ field table.now o 1) × (a < 65536) × (b < 65536) }
    requires at_bound { (at ≤ 1152921504606846976) × (12 * i + 12 ≤ length rows.now) × (length buffer.now ≤ 65536) }
    ensures { MayPut table.now old rows.now buffer.now true o least i at out.old out.new result }
{
    let row = wire::rows::row_in(rows, i);
    let f = judge::optional_at(table, first, all, o, a, b, least, row.member);
    match f {
        Some(wanted) => {
            let form = shapes::form(shapes, wanted.of);
            let c = put_header(out, at, wanted.tag, wire::form_bits(form));
            let d = put_length(out, c, form, rows::part_len(row.place, row.len, buffer));
            let end = put_value(out, d, row.place, row.len, buffer);
            Ok(Some(Placed {
                end,
                tag: wanted.tag,
            }))
        }
        None => Ok(None),
    }
}
