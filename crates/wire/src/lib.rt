// Numbers, sizes, counted bytes, declared lengths and bits, read from the start of the bytes given and put at a place. Each function equals a definition, on any bytes.
// rows.rt has the layout of a row of a list.
#![tactic(auto)]

pub mod rows;

ghost use Rattle.std.specs.Prelude.{◌≡◌, ◌+◌, ◌-◌, ◌*◌, ◌/◌, ◌%◌, ◌≤◌, ◌^◌, ◌<◌, leb, ltb, length, take, drop};
ghost use Rattle.encoding.specs.Result.{pick};
ghost use Rattle.encoding.specs.Table.{at as number_at};
ghost use Rattle.encoding.specs.Number.{size, declared, le_bytes, size_bytes};
ghost use Rattle.encoding.specs.Types.{vsize};
ghost use Rattle.encoding.specs.Optional.{extent};
ghost use Rattle.encoding.specs.Slice.{sliced, compact, bit, worth, flag_bits};
ghost use Rattle.wire.specs.Steps.{step_of, sized_of, bytes_of, behind, later, LaterFits};
ghost use Rattle.wire.specs.Put.{put, header_bits, form_bits};

// A refusal: its number and its place, counted from the first byte given.
#[derive(Clone, Copy)]
pub struct Refusal {
    pub number: usize,
    pub place: usize,
}

impl Refusal {
    // The refusal of what comes n bytes later.
    pub fn behind(self, n: usize) -> Refusal
        requires { n + self.place < 2 ^ 64 }
        ensures { result ≡ behind n self }
    {
        Refusal {
            number: self.number,
            place: n + self.place,
        }
    }
}

// So many, and the bytes taken. Of a size it is the number that was read; of bytes, how many there are: they end those taken.
#[derive(Clone, Copy)]
pub struct Counted {
    pub number: usize,
    pub bytes: usize,
}

// A byte as a number.
pub fn wide(x: u8) -> usize
    ensures { (result ≡ x) × (result < 256) }
{
    x as usize
}

// Whether k bytes fit at a place of a list of n.
pub fn fits(n: usize, at: usize, k: usize) -> bool
    ensures { result ≡ leb (at + k) n }
{
    if n < k { false } else { at <= n - k }
}

// The short at a place, both bytes inside.
fn short_in(s: &[u8], i: usize) -> usize
    requires { i + 2 ≤ length s.now }
    ensures { (result ≡ number_at s.now 2 i) × (result < 65536) }
{
    wide(s[i]) + 256 * wide(s[i + 1])
}

// The int at a place, all four bytes inside.
fn int_in(s: &[u8], i: usize) -> usize
    requires { i + 4 ≤ length s.now }
    ensures { (result ≡ number_at s.now 4 i) × (result < 4294967296) }
{
    short_in(s, i) + 65536 * short_in(s, i + 2)
}

// The long at a place, all eight bytes inside.
pub fn long_in(s: &[u8], i: usize) -> usize
    requires { i + 8 ≤ length s.now }
    ensures { result ≡ number_at s.now 8 i }
{
    int_in(s, i) + 4294967296 * int_in(s, i + 4)
}

// The byte at a place, 0 past the end.
pub fn byte_at(s: &[u8], i: usize) -> usize
    ensures { (result ≡ number_at s.now 1 i) × (result < 256) }
{
    if i < s.len() { wide(s[i]) } else { 0 }
}

// The short at a place; bytes past the end count as 0.
pub fn short_at(s: &[u8], i: usize) -> usize
    ensures { (result ≡ number_at s.now 2 i) × (result < 65536) }
{
    if fits(s.len(), i, 2) {
        return short_in(s, i);
    }
    byte_at(s, i)
}

// The int at a place; bytes past the end count as 0.
pub fn int_at(s: &[u8], i: usize) -> usize
    ensures { (result ≡ number_at s.now 4 i) × (result < 4294967296) }
{
    if fits(s.len(), i, 4) {
        return int_in(s, i);
    }
    if s.len() <= i {
        return 0;
    }
    let t = &s[i..];
    short_at(t, 0) + 65536 * byte_at(t, 2)
}

// The long at a place; bytes past the end count as 0.
pub fn long_at(s: &[u8], i: usize) -> usize
    ensures { result ≡ number_at s.now 8 i }
{
    if s.len() <= i {
        return 0;
    }
    let t = &s[i..];
    int_at(t, 0) + 4294967296 * int_at(t, 4)
}

// What a reader answers that begins n bytes later: the bytes taken, counted with those n, or its refusal.
pub fn later(n: usize, answer: Result<usize, Refusal>) -> Result<usize, Refusal>
    requires { LaterFits n answer }
    ensures { result ≡ later n answer }
{
    match answer {
        Ok(taken) => Ok(n + taken),
        Err(refusal) => Err(refusal.behind(n)),
    }
}

// A size: below 255 one byte, else 255 and an int.
pub fn read_size(s: &[u8]) -> Result<Counted, Refusal>
    ensures { result ≡ sized_of (size s.now) }
{
    if s.len() < 1 {
        return Err(Refusal {
            number: 4,
            place: 0,
        });
    }
    let b = byte_at(s, 0);
    if b < 255 {
        return Ok(Counted {
            number: b,
            bytes: 1,
        });
    }
    if s.len() < 5 {
        return Err(Refusal {
            number: 4,
            place: 0,
        });
    }
    let long = int_at(s, 1);
    if long < 255 {
        return Err(Refusal {
            number: 7,
            place: 0,
        });
    }
    if 2147483648 <= long {
        return Err(Refusal {
            number: 7,
            place: 0,
        });
    }
    Ok(Counted {
        number: long,
        bytes: 5,
    })
}

// A size, then that many bytes, whatever they hold, one item.
pub fn read_counted(s: &[u8]) -> Result<Counted, Refusal>
    ensures { result ≡ bytes_of (extent vsize s.now) }
{
    let size = read_size(s)?;
    if s.len() - size.bytes < size.number {
        return Err(Refusal {
            number: 4,
            place: 0,
        });
    }
    Ok(Counted {
        number: size.number,
        bytes: size.bytes + size.number,
    })
}

// An int that declares a length, at least `least`, `own` of it its own bytes, and the bytes declared.
pub fn read_declared(s: &[u8], least: usize, own: usize) -> Result<usize, Refusal>
    ensures { result ≡ step_of (declared least own s.now) }
{
    if s.len() < 4 {
        return Err(Refusal {
            number: 4,
            place: 0,
        });
    }
    let n = int_at(s, 0);
    if n < least {
        return Err(Refusal {
            number: 11,
            place: 0,
        });
    }
    if 2147483648 <= n {
        return Err(Refusal {
            number: 11,
            place: 0,
        });
    }
    let rest = n.saturating_sub(own);
    if s.len() - 4 < rest {
        return Err(Refusal {
            number: 4,
            place: 0,
        });
    }
    Ok(4 + rest)
}

// ---- bits

// The low three bits of an optional's header.
pub fn type_bits(h: usize) -> usize
    ensures { result ≡ h % 8 }
{
    h & 7
}

// The upper five.
pub fn tag_bits(h: usize) -> usize
    ensures { result ≡ h / 8 }
{
    h >> 3
}

// An optional's header byte.
pub fn header_bits(tag: usize, kind: usize) -> usize
    ensures { result ≡ header_bits tag kind }
{
    ((tag & 31) << 3) | (kind & 7)
}

// The type bits in the header of an optional, by the number of its form.
pub fn form_bits(form: usize) -> usize
    ensures { (result ≡ form_bits form) × (result < 8) }
{
    if form < 8 {
        return form;
    }
    if form < 10 {
        return 5;
    }
    6
}

// Bits 0-1 of a slice's flags: the form of its type ID.
pub fn id_form(flags: usize) -> usize
    ensures { result ≡ flags % 4 }
{
    flags & 3
}

// Bit 2: optional members.
pub fn has_optionals(flags: usize) -> bool
    ensures { result ≡ bit flags 4 }
{
    (flags & 4) != 0
}

// Bit 3: an indirection table.
pub fn has_table(flags: usize) -> bool
    ensures { result ≡ bit flags 8 }
{
    (flags & 8) != 0
}

// Bit 4: a slice size.
pub fn has_size(flags: usize) -> bool
    ensures { result ≡ bit flags 16 }
{
    (flags & 16) != 0
}

// Bit 5: the last slice.
pub fn is_last(flags: usize) -> bool
    ensures { result ≡ bit flags 32 }
{
    (flags & 32) != 0
}

// Bits 6 and above.
pub fn has_unused(flags: usize) -> bool
    ensures { result ≡ ltb 63 flags }
{
    (flags >> 6) != 0
}

// A bit by its worth.
fn worth_of(b: bool, w: usize) -> usize
    ensures { result ≡ worth b w }
{
    if b { w } else { 0 }
}

// A slice's flags: a type ID, optional members, a slice size, the last slice.
pub fn slice_flags(id: bool, optionals: bool, size: bool, last: bool) -> usize
    ensures { result ≡ flag_bits (pick size sliced compact) id optionals last }
{
    worth_of(id, 1) | worth_of(optionals, 4) | worth_of(size, 16) | worth_of(last, 32)
}

// ---- writing

// Puts the k bytes of a number at a place, where they fit.
pub fn put_number(out: &mut [u8], at: usize, k: usize, v: usize)
    ensures { out.new ≡ put at (le_bytes k v) out.old }
{
    if fits(out.len(), at, k) {
        let mut rest = v;
        for i in at..at + k {
            out[i] = (rest % 256) as u8;
            rest /= 256;
        }
    }
}

// How many bytes a size takes.
pub fn size_len(n: usize) -> usize
    ensures { (result ≡ length (size_bytes n)) × (result ≤ 5) }
{
    if n < 255 { 1 } else { 5 }
}

// Puts a size at a place, where it fits.
pub fn put_size(out: &mut [u8], at: usize, n: usize)
    ensures { out.new ≡ put at (size_bytes n) out.old }
{
    if n < 255 {
        put_number(out, at, 1, n);
    } else if fits(out.len(), at, 5) {
        put_number(out, at, 1, 255);
        put_number(out, at + 1, 4, n);
    }
}

// Puts bytes at a place, where they fit.
pub fn put_bytes(out: &mut [u8], at: usize, from: &[u8])
    ensures { out.new ≡ put at from.now out.old }
{
    let n = from.len();
    if fits(out.len(), at, n) {
        for i in 0..n {
            out[at + i] = from[i];
        }
    }
}

// Puts a part of bytes, from a on, at most n, at a place, where it fits.
pub fn put_part(out: &mut [u8], at: usize, from: &[u8], a: usize, n: usize)
    ensures { out.new ≡ put at (take n (drop a from.now)) out.old }
{
    if a < from.len() {
        let k = n.min(from.len() - a);
        put_bytes(out, at, &from[a..a + k]);
    }
}
