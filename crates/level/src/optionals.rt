// The next optional of an owner.
ghost use Rattle.std.specs.Prelude.{◌≡◌, ◌≤◌, ◌<◌};
ghost use Rattle.encoding.specs.Result.{bytes, inside};
ghost use Rattle.encoding.specs.Value.{value};
ghost use Rattle.encoding.specs.Table.{types_at, members_at, ty_of};
ghost use Rattle.encoding.specs.Optional.{part, next_optional};
ghost use Rattle.shapes.specs.Shapes.{shapes_of};
ghost use Rattle.table.specs.Rows.{Whole};
ghost use Rattle.table.specs.Tags.{optional_from};
ghost use Rattle.optional.specs.Forms.{form_named};
ghost use Rattle.optional.specs.Answers.{Titled};
ghost use Rattle.wire.specs.Steps.{bytes_of};
ghost use Rattle.level.specs.Answers.{Tagged, Bare, Headed, bare_shape, optional_answer};

use crate::Optional;
use optional::{Head, Title};
use wire::{Counted, Refusal};

// A simple optional: its tag, and the bytes that it takes with its header of one byte; 0 bytes if there is none.
#[derive(Clone, Copy)]
pub struct Plain {
    pub tag: usize,
    pub bytes: usize,
}

// A simple optional: its tag, the bytes of its header, and those that it takes with it; 0 bytes if there is none.
#[derive(Clone, Copy)]
pub struct Found {
    pub tag: usize,
    pub head: usize,
    pub bytes: usize,
}

// No simple optional.
fn none() -> Found
    ensures { result.bytes ≡ 0 }
{
    Found {
        tag: 0,
        head: 0,
        bytes: 0,
    }
}

// A value of type row t in the declared bytes of the form of number f, which it uses up: how many bytes it has, and the bytes taken.
// A string with its own size is read once; a value that may be any bytes needs as many as its type has.
fn used_up(
    table: &[u8],
    begin: usize,
    shapes: &[u8; 256],
    t: usize,
    s: &[u8],
    f: usize,
) -> Result<Counted, Refusal>
    requires begin_value { begin ≡ types_at table.now }
    requires shapes_value { shapes.now ≡ shapes_of table.now }
    ensures { result ≡ bytes_of (inside (part (form_named f)) (bytes (value (ty_of table.now t))) s.now) }
{
    if f == 8 {
        if shapes::is_text(shapes, t) {
            return optional::extents::whole(text::read_string(s));
        }
    }
    let part = optional::extents::part(s, f)?;
    let w = shapes::width(shapes, t);
    if 0 < w {
        if w == part.number {
            return Ok(part);
        }
    }
    let start = part.bytes - part.number;
    let value = value::read_value(table, begin, shapes, t, &s[start..part.bytes], false);
    let end = wire::later(start, value)?;
    if end != part.bytes {
        return Err(Refusal {
            number: 11,
            place: 0,
        });
    }
    Ok(part)
}

// The next optional: a known value in its declared bytes, or a skipped one. Its tag is at least `least`, and is looked up among the member rows from `from` up to `end`; `begin` is where the type rows begin, `first` where the member rows do.
pub fn optional(
    table: &[u8],
    begin: usize,
    first: usize,
    shapes: &[u8; 256],
    end: usize,
    from: usize,
    least: usize,
    s: &[u8],
) -> Result<Optional, Refusal>
    requires begin_value { begin ≡ types_at table.now }
    requires first_value { (first ≡ members_at table.now) × (first < 1048576) }
    requires shapes_value { shapes.now ≡ shapes_of table.now }
    requires end_bound { end ≤ 131072 }
    ensures { result ≡ optional_answer (optional_from table.now end from) (next_optional (optional_from table.now end from) least s.now) }
{
    let header = optional::headers::header(table, first, shapes, end, from, least, s)?;
    match header {
        Head::Known(member, ty, tag, head, form) => {
            match used_up(table, begin, shapes, ty, &s[head..], form) {
                Ok(value) => Ok(Optional::Known {
                    member,
                    tag,
                    start: head + (value.bytes - value.number),
                    bytes: head + value.bytes,
                }),
                Err(refusal) => Err(refusal.behind(head)),
            }
        }
        Head::Unknown(tag, bits, head) => match optional::extents::extent(&s[head..], bits) {
            Ok(value) => Ok(Optional::Skipped {
                tag,
                bytes: head + value.bytes,
            }),
            Err(refusal) => Err(refusal.behind(head)),
        },
    }
}

// The row of the type of member row `row`, before `limit`, if it is optional and has this tag; else 65,536. Here and below, look-ups end at `end`; the rows before `limit`, which is `end` or before it, lie inside the table, whose member rows begin at `first`.
fn tagged(table: &[u8], first: usize, limit: usize, end: usize, row: usize, tag: usize) -> usize
    requires first_value { first ≡ members_at table.now }
    requires whole { (0 < limit → Whole table.now limit) × (limit ≤ end) }
    ensures { result < 65536 → Tagged table.now end row tag result }
{
    if limit <= row {
        return 65536;
    }
    let member = table::member_row_in(table, first, row);
    if member.mark == 0 {
        return 65536;
    }
    if tag != member.tag {
        return 65536;
    }
    member.of
}

// The shape of the types whose values are any bytes of F1, F2, F4 or F8, by the type bits k; no shape for other bits.
fn bare_shape(k: usize) -> usize
    ensures { result ≡ bare_shape k }
{
    match k {
        0 => 11,
        1 => 12,
        2 => 14,
        3 => 18,
        _ => 256,
    }
}

// The next optional, whose header was read, if it is simple: if its tag is that of member row `row`, and its value any bytes of F1, F2, F4 or F8.
// It is short enough to be inlined, so that most optionals take no call. The width comes from the row's shape, not from the header: so the next header is looked at without waiting for this one.
// Wrong and ruled out: a long taken as four bytes.
fn titled(
    table: &[u8],
    first: usize,
    limit: usize,
    shapes: &[u8; 256],
    end: usize,
    row: usize,
    least: usize,
    s: &[u8],
    title: Title,
) -> Found
    requires first_value { first ≡ members_at table.now }
    requires whole { (0 < limit → Whole table.now limit) × (limit ≤ end) }
    requires shapes_value { shapes.now ≡ shapes_of table.now }
    requires head_bound { (title.head ≤ 6) × (0 < title.head → Titled s.now title.tag title.bits title.head) }
    ensures value { Headed table.now end row least s.now result.tag result.head result.bytes }
    ensures same_head { 0 < result.bytes → (0 < title.head) × (result.head ≡ title.head) }
{
    let tag = title.tag;
    let head = title.head;
    if head == 0 {
        return none();
    }
    if tag < least {
        return none();
    }
    let t = tagged(table, first, limit, end, row, tag);
    if 65536 <= t {
        return none();
    }
    let x = shapes::shape(shapes, t);
    if x != bare_shape(title.bits) {
        return none();
    }
    let bytes = head + (x - 10);
    if s.len() < bytes {
        return none();
    }
    Found { tag, head, bytes }
}

// The next optional, if it is simple, whatever its tag.
pub fn any_simple(
    table: &[u8],
    first: usize,
    limit: usize,
    shapes: &[u8; 256],
    end: usize,
    row: usize,
    least: usize,
    s: &[u8],
) -> Found
    requires first_value { first ≡ members_at table.now }
    requires whole { (0 < limit → Whole table.now limit) × (limit ≤ end) }
    requires shapes_value { shapes.now ≡ shapes_of table.now }
    ensures { Headed table.now end row least s.now result.tag result.head result.bytes }
{
    let title = optional::headers::title(s);
    titled(table, first, limit, shapes, end, row, least, s, title)
}

// The next optional, if it is simple: if its tag is below 30 and that of member row `row`, and its value any bytes of F1, F2, F4 or F8.
// Most tags are below 30, and a loop over them is shorter.
// Wrong and ruled out: a long taken as four bytes.
pub fn simple(
    table: &[u8],
    first: usize,
    limit: usize,
    shapes: &[u8; 256],
    end: usize,
    row: usize,
    least: usize,
    s: &[u8],
) -> Plain
    requires first_value { first ≡ members_at table.now }
    requires whole { (0 < limit → Whole table.now limit) × (limit ≤ end) }
    requires shapes_value { shapes.now ≡ shapes_of table.now }
    ensures { Bare table.now end row least s.now result.tag result.bytes }
{
    let title = optional::headers::short_title(s);
    let found = titled(table, first, limit, shapes, end, row, least, s, title);
    Plain {
        tag: found.tag,
        bytes: found.bytes,
    }
}
