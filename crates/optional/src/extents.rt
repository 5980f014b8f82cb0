// An optional's declared bytes, by its type bits and by its form: how many are delivered, and the bytes taken. Those delivered end those taken.
ghost use Rattle.std.specs.Prelude.{◌≡◌};
ghost use Rattle.encoding.specs.Types.{size, fsize, bits_at};
ghost use Rattle.encoding.specs.Optional.{run, extent, part};
ghost use Rattle.wire.specs.Steps.{bytes_of};
ghost use Rattle.optional.specs.Forms.{form_named, run_width};
ghost use Rattle.optional.specs.Answers.{whole_of};

use wire::{Counted, Refusal};

// F1, F2, F4, F8: k bytes.
fn bare(s: &[u8], k: usize) -> Result<Counted, Refusal>
    ensures { result ≡ bytes_of (run k s.now) }
{
    if s.len() < k {
        return Err(Refusal {
            number: 4,
            place: 0,
        });
    }
    Ok(Counted {
        number: k,
        bytes: k,
    })
}

// Size: the bytes of the size itself.
fn sized(s: &[u8]) -> Result<Counted, Refusal>
    ensures { result ≡ bytes_of (extent size s.now) }
{
    let size = wire::read_size(s)?;
    Ok(Counted {
        number: size.bytes,
        bytes: size.bytes,
    })
}

// FSize: an int, not counting itself, and that many bytes, at least one.
fn declared(s: &[u8]) -> Result<Counted, Refusal>
    ensures { result ≡ bytes_of (extent fsize s.now) }
{
    let taken = wire::read_declared(s, 1, 0)?;
    Ok(Counted {
        number: taken - 4,
        bytes: taken,
    })
}

// The bytes that type bits k declare.
pub fn extent(s: &[u8], k: usize) -> Result<Counted, Refusal>
    ensures { result ≡ bytes_of (extent (bits_at k) s.now) }
{
    match k {
        0 => bare(s, 1),
        1 => bare(s, 2),
        2 => bare(s, 4),
        3 => bare(s, 8),
        4 => sized(s),
        5 => wire::read_counted(s),
        6 => declared(s),
        _ => Err(Refusal {
            number: 13,
            place: 0,
        }),
    }
}

// All bytes taken are delivered.
pub fn whole(part: Result<Counted, Refusal>) -> Result<Counted, Refusal>
    ensures { result ≡ whole_of part }
{
    let counted = part?;
    Ok(Counted {
        number: counted.bytes,
        bytes: counted.bytes,
    })
}

// How many bytes a value has whose form number f is F1, F2, F4 or F8.
fn run_width(f: usize) -> usize
    ensures { result ≡ run_width f }
{
    match f {
        0 => 1,
        1 => 2,
        2 => 4,
        _ => 8,
    }
}

// The declared bytes of a value whose form has number f.
pub fn part(s: &[u8], f: usize) -> Result<Counted, Refusal>
    ensures { result ≡ bytes_of (part (form_named f) s.now) }
{
    if f < 4 {
        return bare(s, run_width(f));
    }
    if f == 4 {
        return sized(s);
    }
    if f == 8 {
        return whole(wire::read_counted(s));
    }
    if f == 9 {
        return wire::read_counted(s);
    }
    declared(s)
}
