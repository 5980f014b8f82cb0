// Text, which is well-formed UTF-8, and the one reader of strings. Bytes below 128 are passed many at a time, other characters one by one.
#![tactic(auto)]

ghost use Rattle.std.specs.Prelude.{◌≡◌, Ok, true, [], ◌∷◌, ◌+◌, ◌-◌, ◌≤◌, ◌<◌, length, take, drop};
ghost use Rattle.encoding.specs.Utf8.{is_utf8};
ghost use Rattle.encoding.specs.Number.{string};
ghost use Rattle.encoding.specs.Proxy.{text};
ghost use Rattle.wire.specs.Steps.{step_of, bytes_of};
ghost use Rattle.text.specs.Characters.{in_all, second_bounds, first_character, Ascii, Crossed};

use wire::{Counted, Refusal};

// The highest bit of each of eight bytes.
const MARKS: usize = 0x8080808080808080;

// The byte at a place is there and lies between two bounds.
fn between(s: &[u8], i: usize, least: usize, most: usize) -> bool
    ensures { result ≡ in_all ((least, most) ∷ []) (drop i s.now) }
{
    if i < s.len() {
        let b = wire::wide(s[i]);
        if least <= b {
            return b <= most;
        }
    }
    false
}

// The least value of the second byte of three or four, by the first.
fn second_least(a: usize) -> usize
    ensures { result ≡ (second_bounds a).0 }
{
    if a == 0xE0 {
        return 0xA0;
    }
    if a == 0xF0 {
        return 0x90;
    }
    0x80
}

// The greatest value of the second byte of three or four, by the first.
fn second_most(a: usize) -> usize
    ensures { result ≡ (second_bounds a).1 }
{
    if a == 0xED {
        return 0x9F;
    }
    if a == 0xF4 {
        return 0x8F;
    }
    0xBF
}

// How many bytes the character at a place takes; 0 if no character is there.
fn character(s: &[u8], i: usize) -> usize
    requires { i < length s.now }
    ensures { result ≡ first_character (drop i s.now) }
{
    let a = wire::wide(s[i]);
    if a < 0x80 {
        return 1;
    }
    if a < 0xC2 {
        return 0;
    }
    if a < 0xE0 {
        if between(s, i + 1, 0x80, 0xBF) {
            return 2;
        }
        return 0;
    }
    if between(s, i + 1, second_least(a), second_most(a)) {
        if between(s, i + 2, 0x80, 0xBF) {
            if a < 0xF0 {
                return 3;
            }
            if a < 0xF5 {
                if between(s, i + 3, 0x80, 0xBF) {
                    return 4;
                }
            }
        }
    }
    0
}

// Eight to sixteen bytes at a place are below 128: the first eight and the last eight, which may overlap.
fn are_two_ascii(s: &[u8], i: usize, n: usize) -> bool
    requires le_n { (8 ≤ n) × (n ≤ 16) }
    requires n_in_bounds { i + n ≤ length s.now }
    ensures { result ≡ true → Ascii s.now i n }
{
    ((wire::long_in(s, i) & MARKS) | (wire::long_in(s, i + n - 8) & MARKS)) == 0
}

// Sixteen to thirty-two bytes: the first sixteen and the last sixteen.
fn are_four_ascii(s: &[u8], i: usize, n: usize) -> bool
    requires le_n { (16 ≤ n) × (n ≤ 32) }
    requires n_in_bounds { i + n ≤ length s.now }
    ensures { result ≡ true → Ascii s.now i n }
{
    let a = (wire::long_in(s, i) & MARKS) | (wire::long_in(s, i + 8) & MARKS);
    let b = (wire::long_in(s, i + n - 16) & MARKS) | (wire::long_in(s, i + n - 8) & MARKS);
    (a | b) == 0
}

// Eight bytes at a place are there and below 128.
fn is_ascii(s: &[u8], i: usize) -> bool
    requires { i ≤ length s.now }
    ensures { result ≡ true → Ascii s.now i 8 }
{
    if s.len() - i < 8 {
        return false;
    }
    are_two_ascii(s, i, 8)
}

// Thirty-two bytes at a place are there and below 128.
fn is_ascii_block(s: &[u8], i: usize) -> bool
    requires { i ≤ length s.now }
    ensures { result ≡ true → Ascii s.now i 32 }
{
    if s.len() - i < 32 {
        return false;
    }
    are_four_ascii(s, i, 32)
}

// A place up to which the bytes are below 128, from a place on: they are passed many at a time, the last eight once more if fewer are left.
fn ascii_end(s: &[u8], from: usize) -> usize
    requires { from ≤ length s.now }
    ensures { Crossed s.now from result }
{
    let mut i = from;
    while is_ascii_block(s, i) {
        i += 32;
    }
    while is_ascii(s, i) {
        i += 8;
    }
    if s.len() - i < 8 {
        if 8 <= s.len() {
            if is_ascii(s, s.len() - 8) {
                return s.len();
            }
        }
    }
    i
}

// Characters to the end.
fn all_characters(s: &[u8]) -> bool
    ensures { result ≡ is_utf8 s.now }
{
    let n = s.len();
    let mut i = 0;
    while i < n {
        if s[i] < 128 {
            i = ascii_end(s, i + 1);
        } else {
            let k = character(s, i);
            if k == 0 {
                return false;
            }
            i += k;
        }
    }
    true
}

// Up to eight bytes at a place are below 128, by one long; no where the slice ends before it.
fn are_few_ascii(s: &[u8], i: usize, n: usize) -> bool
    requires n_bound { n ≤ 8 }
    requires n_in_bounds { i + n ≤ length s.now }
    ensures { result ≡ true → Ascii s.now i n }
{
    if n == 0 {
        return true;
    }
    if s.len() - i < 8 {
        return false;
    }
    (wire::long_in(s, i) & (MARKS >> (64 - 8 * n))) == 0
}

// Thirty-two bytes or more between two places are below 128: thirty-two at a time, the last thirty-two whatever was tested of them.
fn are_ascii_blocks(s: &[u8], from: usize, to: usize) -> bool
    requires from_bound { from + 32 ≤ to }
    requires to_in_bounds { to ≤ length s.now }
    ensures { result ≡ true → Ascii s.now from (to - from) }
{
    for i in (from..to - 32).step_by(32) {
        if !are_four_ascii(s, i, 32) {
            return false;
        }
    }
    are_four_ascii(s, to - 32, 32)
}

// More than eight bytes between two places are below 128.
fn are_many_ascii(s: &[u8], from: usize, to: usize) -> bool
    requires from_bound { from + 8 < to }
    requires to_in_bounds { to ≤ length s.now }
    ensures { result ≡ true → Ascii s.now from (to - from) }
{
    let n = to - from;
    if n <= 16 {
        return are_two_ascii(s, from, n);
    }
    if n <= 32 {
        return are_four_ascii(s, from, n);
    }
    are_ascii_blocks(s, from, to)
}

// The bytes between two places are text, character by character.
fn are_characters(s: &[u8], from: usize, to: usize) -> bool
    requires from_le_to { from ≤ to }
    requires to_in_bounds { to ≤ length s.now }
    ensures { result ≡ is_utf8 (take (to - from) (drop from s.now)) }
{
    all_characters(&s[from..to])
}

// The bytes between two places are text: all below 128, or character by character. `are_characters` is called from two places so that it is not inlined into the short way.
pub fn is_utf8(s: &[u8], from: usize, to: usize) -> bool
    requires from_le_to { from ≤ to }
    requires to_in_bounds { to ≤ length s.now }
    ensures { result ≡ is_utf8 (take (to - from) (drop from s.now)) }
{
    let n = to - from;
    if n <= 8 {
        if are_few_ascii(s, from, n) {
            return true;
        }
        return are_characters(s, from, to);
    }
    if are_many_ascii(s, from, to) {
        return true;
    }
    are_characters(s, from, to)
}

// A string: 4 or 7 at its size, then 24 there if its bytes are no text. Every string is read here: of values, type IDs, identities, facets, adapters and optionals.
// A size below 8 and its bytes are judged together, by one long.
pub fn read_string(s: &[u8]) -> Result<Counted, Refusal>
    ensures { result ≡ bytes_of (string s.now) }
{
    if 8 <= s.len() {
        let few = wire::byte_at(s, 0);
        if few < 8 {
            if are_few_ascii(s, 0, 1 + few) {
                return Ok(Counted {
                    number: few,
                    bytes: 1 + few,
                });
            }
        }
    }
    let read = wire::read_counted(s)?;
    if !is_utf8(s, read.bytes - read.number, read.bytes) {
        return Err(Refusal {
            number: 24,
            place: 0,
        });
    }
    Ok(read)
}

// A string, of which only the bytes taken are wanted.
pub fn read_text(s: &[u8]) -> Result<usize, Refusal>
    ensures { result ≡ step_of (text s.now) }
{
    let read = read_string(s)?;
    Ok(read.bytes)
}

// Up to thirty-two bytes at a place are below 128; no where there are more, or fewer than eight and the slice ends within eight.
fn are_some_ascii(s: &[u8], i: usize, n: usize) -> bool
    requires { i + n ≤ length s.now }
    ensures { result ≡ true → Ascii s.now i n }
{
    if n < 8 {
        return are_few_ascii(s, i, n);
    }
    if n <= 16 {
        return are_two_ascii(s, i, n);
    }
    if n <= 32 {
        return are_four_ascii(s, i, n);
    }
    false
}

// How many bytes a string takes, if its size is one byte; 0 if it has a longer size or is refused. A number, so that the answer stays in a register.
pub fn short_text(s: &[u8]) -> usize
    ensures { 0 < result → Ok result ≡ step_of (text s.now) }
{
    if s.len() < 1 {
        return 0;
    }
    let n = wire::byte_at(s, 0);
    if n == 255 {
        return 0;
    }
    if s.len() <= n {
        return 0;
    }
    if are_some_ascii(s, 1, n) {
        return 1 + n;
    }
    if is_utf8(s, 1, 1 + n) {
        return 1 + n;
    }
    0
}
