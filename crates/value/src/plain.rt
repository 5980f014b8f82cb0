// Values without parts: bytes of any content, bools, enums; many bools and many strings.
ghost use Rattle.std.specs.Prelude.{◌≡◌, true, ◌+◌, ◌≤◌, length};
ghost use Rattle.encoding.specs.Result.{skip, times};
ghost use Rattle.encoding.specs.Number.{bool, number};
ghost use Rattle.encoding.specs.Proxy.{text};
ghost use Rattle.encoding.specs.Types.{upto, enum};
ghost use Rattle.encoding.specs.Table.{types_at, allowed};
ghost use Rattle.encoding.specs.Value.{enum_width, value};
ghost use Rattle.encoding.specs.Old.{type_as};
ghost use Rattle.wire.specs.Steps.{step_of, sized_of};
ghost use Rattle.value.specs.Parts.{enum_number, AreBools};

use wire::{Counted, Refusal};

// The bits above the lowest of each of eight bytes.
const ABOVE_ONE: usize = 0xFEFEFEFEFEFEFEFE;

// k bytes of any content.
pub fn skip(s: &[u8], k: usize) -> Result<usize, Refusal>
    ensures { result ≡ step_of (skip k s.now) }
{
    if s.len() < k {
        return Err(Refusal {
            number: 4,
            place: 0,
        });
    }
    Ok(k)
}

// A bool: one byte, 0 or 1.
pub fn bool(s: &[u8]) -> Result<usize, Refusal>
    ensures { result ≡ step_of (bool s.now) }
{
    if s.len() < 1 {
        return Err(Refusal {
            number: 4,
            place: 0,
        });
    }
    if 2 <= wire::byte_at(s, 0) {
        return Err(Refusal {
            number: 8,
            place: 0,
        });
    }
    Ok(1)
}

// The eight bytes at a place are bools: no bit above the lowest of any of them is set.
fn eight_bools(s: &[u8], i: usize) -> bool
    requires { i + 8 ≤ length s.now }
    ensures { result ≡ true → AreBools s.now i 8 }
{
    (wire::long_in(s, i) & ABOVE_ONE) == 0
}

// So are the thirty-two.
fn block_of_bools(s: &[u8], i: usize) -> bool
    requires { i + 32 ≤ length s.now }
    ensures { result ≡ true → AreBools s.now i 32 }
{
    let a = (wire::long_in(s, i) & ABOVE_ONE) | (wire::long_in(s, i + 8) & ABOVE_ONE);
    let b = (wire::long_in(s, i + 16) & ABOVE_ONE) | (wire::long_in(s, i + 24) & ABOVE_ONE);
    (a | b) == 0
}

// So many of the first `most` bytes, which are there, are bools: whole blocks of thirty-two, up to one that holds a wrong byte.
fn bool_blocks(s: &[u8], most: usize) -> usize
    requires { most ≤ length s.now }
    ensures { (result ≤ most) × AreBools s.now 0 result }
{
    let blocks = most / 32;
    for k in 0..blocks {
        if !block_of_bools(s, 32 * k) {
            return 32 * k;
        }
    }
    32 * blocks
}

// So many of the first n bytes are there and bools: all but the last few, or those before the eight that hold a wrong one.
fn bool_eights(s: &[u8], n: usize) -> usize
    ensures { (result ≤ n) × AreBools s.now 0 result }
{
    let most = n.min(s.len());
    let first = bool_blocks(s, most);
    let eights = (most - first) / 8;
    for k in 0..eights {
        if !eight_bools(s, first + 8 * k) {
            return first + 8 * k;
        }
    }
    first + 8 * eights
}

// n bools: thirty-two and eight at a time, and one by one those that the eights leave, among them the first that is wrong.
// Wrong and ruled out: a byte of 2 among eight that is taken; 8 at the first byte of the eight.
pub fn bools(s: &[u8], n: usize) -> Result<usize, Refusal>
    ensures { result ≡ step_of (times n bool s.now) }
{
    let first = bool_eights(s, n);
    let mut at = first;
    for _ in first..n {
        match bool(&s[at..]) {
            Ok(taken) => at += taken,
            Err(refusal) => return Err(refusal.behind(at)),
        }
    }
    Ok(at)
}

// n strings.
pub fn texts(s: &[u8], n: usize) -> Result<usize, Refusal>
    ensures { result ≡ step_of (times n text s.now) }
{
    let mut at: usize = 0;
    for _ in 0..n {
        at = wire::later(at, text::read_text(&s[at..]))?;
    }
    Ok(at)
}

// The number of an enumerator of at most g, in either encoding.
fn number_upto(g: usize, s: &[u8], old: bool) -> Result<Counted, Refusal>
    ensures { result ≡ sized_of (enum_number old (upto g) s.now) }
{
    if old {
        return old_number(g, s);
    }
    wire::read_size(s)
}

// An enum of all numbers up to g: what an enum is in a table without lists.
pub fn upto(g: usize, s: &[u8], old: bool) -> Result<usize, Refusal>
    ensures { result ≡ step_of (value (type_as old (enum (upto g))) s.now) }
{
    let read = number_upto(g, s, old)?;
    if read.number <= g {
        Ok(read.bytes)
    } else {
        Err(Refusal {
            number: 9,
            place: 0,
        })
    }
}

// n enums of all numbers up to g.
pub fn enums(g: usize, s: &[u8], n: usize, old: bool) -> Result<usize, Refusal>
    ensures { result ≡ step_of (times n (value (type_as old (enum (upto g)))) s.now) }
{
    let mut at: usize = 0;
    for _ in 0..n {
        at = wire::later(at, upto(g, &s[at..], old))?;
    }
    Ok(at)
}

// The number of an enumerator in encoding 1.0: of one byte, two or four, by the greatest, g.
// Wrong and ruled out: a byte where the greatest is 127; the bytes of a short in the other order.
fn old_number(g: usize, s: &[u8]) -> Result<Counted, Refusal>
    ensures { result ≡ sized_of (number (enum_width g) s.now) }
{
    if g <= 126 {
        if s.len() < 1 {
            return Err(Refusal {
                number: 4,
                place: 0,
            });
        }
        return Ok(Counted {
            number: wire::byte_at(s, 0),
            bytes: 1,
        });
    }
    if g <= 32766 {
        if s.len() < 2 {
            return Err(Refusal {
                number: 4,
                place: 0,
            });
        }
        return Ok(Counted {
            number: wire::short_at(s, 0),
            bytes: 2,
        });
    }
    if s.len() < 4 {
        return Err(Refusal {
            number: 4,
            place: 0,
        });
    }
    Ok(Counted {
        number: wire::int_at(s, 0),
        bytes: 4,
    })
}

// The number of an enumerator of enum row t, in either encoding. Here and below, `begin` is where the type rows begin.
fn enum_number(
    table: &[u8],
    begin: usize,
    t: usize,
    s: &[u8],
    old: bool,
) -> Result<Counted, Refusal>
    requires { begin ≡ types_at table.now }
    ensures { result ≡ sized_of (enum_number old (allowed table.now t) s.now) }
{
    if old {
        return old_number(table::most(table, begin, t), s);
    }
    wire::read_size(s)
}

// An enum in either encoding: a number that enum row t of the table allows. One function, so that `allows` is called from one place and inlined.
pub fn enumerator(
    table: &[u8],
    begin: usize,
    t: usize,
    s: &[u8],
    old: bool,
) -> Result<usize, Refusal>
    requires { begin ≡ types_at table.now }
    ensures { result ≡ step_of (value (type_as old (enum (allowed table.now t))) s.now) }
{
    let read = enum_number(table, begin, t, s, old)?;
    if table::allows(table, t, read.number) {
        Ok(read.bytes)
    } else {
        Err(Refusal {
            number: 9,
            place: 0,
        })
    }
}
