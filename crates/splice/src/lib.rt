// Puts a message with the bytes of one optional exchanged, in one pass and one copy. Nothing is asked of the bytes that are passed on.
#![tactic(auto)]

ghost use Rattle.std.specs.Prelude.{◌≡◌, ◌++◌, ◌+◌, ◌≤◌, ◌<◌, length, drop};
ghost use Rattle.wire.specs.Put.{put};
ghost use Rattle.pieces.specs.Puts.{Puts};
ghost use Rattle.splice.specs.Spliced.{header_length, field_length, piece_of, piece_length, marker_of, exchanged, size_of, head_of, data_of, slice_middle, front_of, spliced, Cuts, Shaped};

use wire::rows::RowNumbers;

// What is put in place of the bytes `from` up to `to` of a message: a member of a tag and form, if one is set, and an end marker.
// Of a slice: the places of its flags and of its size, its end, and whether it has optionals afterwards. Of a parameter list these are 0.
#[derive(Clone, Copy)]
pub struct Cut {
    pub flags: usize,
    pub size: usize,
    pub end: usize,
    pub from: usize,
    pub to: usize,
    pub tag: usize,
    pub form: usize,
    pub setting: bool,
    pub flagged: bool,
    pub marker: bool,
}

// How many bytes the header of a tag takes.
fn header_len(tag: usize) -> usize
    ensures { (result ≡ header_length tag) × (result ≤ 6) }
{
    if tag < 30 {
        return 1;
    }
    1 + wire::size_len(tag)
}

// How many bytes the length field of a form takes, before n bytes.
fn field_len(form: usize, n: usize) -> usize
    ensures { (result ≡ field_length form n) × (result ≤ 5) }
{
    if form < 9 {
        return 0;
    }
    if form == 9 {
        return wire::size_len(n);
    }
    4
}

// How many bytes a new member of n bytes takes; none if one is removed.
fn piece_len(setting: bool, tag: usize, form: usize, n: usize) -> usize
    requires { n ≤ 65536 }
    ensures { (result ≡ piece_length setting tag form n) × (result ≤ 65600) }
{
    if setting {
        return header_len(tag) + field_len(form, n) + n;
    }
    0
}

// One for an end marker.
fn marker_len(marker: bool) -> usize
    ensures { (result ≡ length (marker_of marker)) × (result ≤ 1) }
{
    if marker { 1 } else { 0 }
}

// How many of `all` bytes there are after the exchange, with a new member of n bytes.
pub fn size_after(c: Cut, all: usize, n: usize) -> usize
    requires cuts { Cuts all c }
    requires n_bound { n ≤ 65536 }
    ensures { (result ≡ size_of c all n) × (result ≤ 131200) }
{
    all - (c.to - c.from) + piece_len(c.setting, c.tag, c.form, n) + marker_len(c.marker)
}

// Puts the bytes of the message between its size and the slice's size, with the slice's new flags.
fn put_head(flagged: bool, flags: usize, size: usize, message: &[u8], out: &mut [u8])
    requires { (4 ≤ flags) × (flags + 1 ≤ size) × (size ≤ length message.now) × (length message.now ≤ 65536) × (size ≤ length out.old) }
    ensures { out.new ≡ put 4 (head_of flagged flags size message.now) out.old }
{
    let last = wire::is_last(wire::byte_at(message, flags));
    wire::put_part(out, 4, message, 4, flags - 4);
    wire::put_number(out, flags, 1, wire::slice_flags(true, flagged, true, last));
    wire::put_part(out, flags + 1, message, flags + 1, size - (flags + 1));
}

// Puts the slice's new size, and the bytes of the message between it and the exchange.
fn put_data(size: usize, from: usize, v: usize, message: &[u8], out: &mut [u8])
    requires { (size + 4 ≤ from) × (from ≤ length message.now) × (length message.now ≤ 65536) × (from ≤ length out.old) }
    ensures { out.new ≡ put size (data_of size from v message.now) out.old }
{
    wire::put_number(out, size, 4, v);
    wire::put_part(out, size + 4, message, size + 4, from - (size + 4));
}

// Puts the bytes of the message between its size and the exchange, with the slice's new flags and size.
fn put_slice(c: Cut, message: &[u8], n: usize, out: &mut [u8])
    requires shaped { Shaped (length message.now) c }
    requires end_nonzero { 0 < c.end }
    requires n_bound { n ≤ 65536 }
    requires from_in_bounds { c.from ≤ length out.old }
    ensures { out.new ≡ put 4 (slice_middle c message.now n) out.old }
{
    put_head(c.flagged, c.flags, c.size, message, out);
    let v = size_after(c, c.end - c.size, n);
    put_data(c.size, c.from, v, message, out);
}

// Puts all bytes before the exchange.
fn put_front(c: Cut, message: &[u8], n: usize, out: &mut [u8])
    requires shaped { Shaped (length message.now) c }
    requires n_bound { n ≤ 65536 }
    requires from_in_bounds { c.from ≤ length out.old }
    ensures { out.new ≡ put 0 (front_of c message.now n) out.old }
{
    wire::put_number(out, 0, 4, size_after(c, message.len(), n));
    if 0 < c.end {
        put_slice(c, message, n, out);
    } else {
        wire::put_part(out, 4, message, 4, c.from - 4);
    }
}

// Puts the new member at a place, if one is set; returns its end.
fn put_piece(
    setting: bool,
    tag: usize,
    form: usize,
    bytes: &[u8],
    at: usize,
    out: &mut [u8],
) -> usize
    requires { (length bytes.now ≤ 65536) × (at ≤ 65536) }
    ensures { Puts at (piece_of setting tag form bytes.now) out.old out.new result × (result ≤ 131200) }
{
    if setting {
        let row = RowNumbers {
            member: 0,
            place: 0,
            len: bytes.len(),
        };
        return pieces::piece::put_optional(out, at, tag, form, row, bytes);
    }
    at
}

// Puts a new end marker at a place, if there is one; returns its end.
fn put_marker(marker: bool, at: usize, out: &mut [u8]) -> usize
    requires { at ≤ 131200 }
    ensures { Puts at (marker_of marker) out.old out.new result }
{
    if marker {
        wire::put_number(out, at, 1, 255);
        return at + 1;
    }
    at
}

// Puts the message with the exchange made.
pub fn put(c: Cut, message: &[u8], bytes: &[u8], out: &mut [u8])
    requires shaped { Shaped (length message.now) c }
    requires bytes_len_bound { length bytes.now ≤ 65536 }
    requires bytes_in_bounds { size_of c (length message.now) (length bytes.now) ≤ length out.old }
    ensures { out.new ≡ spliced c message.now bytes.now ++ drop (length (spliced c message.now bytes.now)) out.old }
{
    put_front(c, message, bytes.len(), out);
    let a = put_piece(c.setting, c.tag, c.form, bytes, c.from, out);
    let b = put_marker(c.marker, a, out);
    wire::put_part(out, b, message, c.to, message.len());
}
