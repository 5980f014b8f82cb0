// An optional's header: its first byte and, if the tag is long, a size; then the judgements.
ghost use Rattle.std.specs.Prelude.{◌≡◌, ◌≤◌, ◌<◌, ◌&&◌, ltb};
ghost use Rattle.encoding.specs.Table.{members_at};
ghost use Rattle.encoding.specs.Optional.{header};
ghost use Rattle.shapes.specs.Shapes.{shapes_of};
ghost use Rattle.table.specs.Tags.{optional_from};
ghost use Rattle.optional.specs.Answers.{front, front_of, early, head_of, LongTag, Titled};

use crate::{Front, Head, Title};
use wire::Refusal;

// The first byte; if its five tag bits are 30, the tag follows as a size.
fn front(s: &[u8]) -> Result<Front, Refusal>
    ensures { result ≡ front_of (front s.now) }
{
    if s.len() < 1 {
        return Err(Refusal {
            number: 4,
            place: 0,
        });
    }
    let first = wire::byte_at(s, 0);
    let tag = wire::tag_bits(first);
    let bits = wire::type_bits(first);
    if 31 <= tag {
        return Err(Refusal {
            number: 12,
            place: 0,
        });
    }
    if tag != 30 {
        return Ok(Front {
            long: false,
            tag,
            bits,
            head: 1,
        });
    }
    match wire::read_size(&s[1..]) {
        Ok(size) => Ok(Front {
            long: true,
            tag: size.number,
            bits,
            head: 1 + size.bytes,
        }),
        Err(refusal) => Err(refusal.behind(1)),
    }
}

// No header that `title` takes.
fn untitled() -> Title
    ensures { result.head ≡ 0 }
{
    Title {
        tag: 0,
        bits: 0,
        head: 0,
    }
}

// A tag from 30 on after the first byte, whose type bits are passed on: one byte if it is below 255, else 255 and an int.
fn long_tag(s: &[u8], bits: usize) -> Title
    ensures { (result.head ≤ 6) × (0 < result.head → (result.bits ≡ bits) × LongTag s.now result.tag result.head) }
{
    let b = wire::byte_at(s, 1);
    if b < 30 {
        return untitled();
    }
    if b < 255 {
        return Title {
            tag: b,
            bits,
            head: 2,
        };
    }
    if s.len() < 6 {
        return untitled();
    }
    let tag = wire::int_at(s, 2);
    if tag < 255 {
        return untitled();
    }
    if 2147483648 <= tag {
        return untitled();
    }
    Title { tag, bits, head: 6 }
}

// A header's tag, its type bits and its bytes; 0 bytes if it is refused. Says nothing of a header that is longer than the bytes at hand.
// Its answer is no enum, so that it stays in registers where the function is inlined.
pub fn title(s: &[u8]) -> Title
    ensures { (result.head ≤ 6) × (0 < result.head → Titled s.now result.tag result.bits result.head) }
{
    let h = wire::byte_at(s, 0);
    let tag = wire::tag_bits(h);
    let bits = wire::type_bits(h);
    if tag < 30 {
        return Title { tag, bits, head: 1 };
    }
    if 30 < tag {
        return untitled();
    }
    long_tag(s, bits)
}

// The same of a header of one byte alone.
pub fn short_title(s: &[u8]) -> Title
    ensures value { (result.head ≤ 6) × (0 < result.head → Titled s.now result.tag result.bits result.head) }
    ensures short { result.head ≤ 1 }
{
    let h = wire::byte_at(s, 0);
    let tag = wire::tag_bits(h);
    if 30 <= tag {
        return untitled();
    }
    Title {
        tag,
        bits: wire::type_bits(h),
        head: 1,
    }
}

// A long tag under 30.
fn under(long: bool, tag: usize) -> bool
    ensures { result ≡ long && ltb tag 30 }
{
    if long { tag < 30 } else { false }
}

// The judgements before the look-up: 12 for a long tag under 30 or a tag below the least, 13 for a class; else 0.
fn early(least: usize, long: bool, tag: usize, k: usize) -> usize
    ensures { result ≡ early least long tag k }
{
    if under(long, tag) {
        return 12;
    }
    if tag < least {
        return 12;
    }
    if k == 7 {
        return 13;
    }
    0
}

// A header, judged: first as above, then 12 for a known tag with other type bits. The tag is looked up among the member rows from `from` up to `end`; `first` is where the member rows begin.
pub fn header(
    table: &[u8],
    first: usize,
    shapes: &[u8; 256],
    end: usize,
    from: usize,
    least: usize,
    s: &[u8],
) -> Result<Head, Refusal>
    requires first_value { (first ≡ members_at table.now) × (first < 1048576) }
    requires shapes_value { shapes.now ≡ shapes_of table.now }
    requires end_bound { end ≤ 131072 }
    ensures { result ≡ head_of table.now (optional_from table.now end from) (header (optional_from table.now end from) least s.now) }
{
    let front = front(s)?;
    let wrong = early(least, front.long, front.tag, front.bits);
    if wrong != 0 {
        return Err(Refusal {
            number: wrong,
            place: 0,
        });
    }
    let found = table::chain::tag_member(table, first, end, from, front.tag);
    match found {
        Some(m) => {
            let ty = crate::type_of(table::members(table), m.member, m.of);
            let form = shapes::form(shapes, ty);
            if front.bits != wire::form_bits(form) {
                return Err(Refusal {
                    number: 12,
                    place: 0,
                });
            }
            Ok(Head::Known(m.member, ty, front.tag, front.head, form))
        }
        None => Ok(Head::Unknown(front.tag, front.bits, front.head)),
    }
}
