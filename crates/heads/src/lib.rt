// Flags and type ID of a slice, and what they mean at this stage of the walk.
#![tactic(auto)]

ghost use Rattle.std.specs.Prelude.{◌≡◌, ◌&&◌, not};
ghost use Rattle.encoding.specs.Result.{must, same_bytes};
ghost use Rattle.encoding.specs.Table.{types_at, name_of};
ghost use Rattle.encoding.specs.Slice.{format_of_flags, mixed, due, flag_form, head, stand_of, id_form, wrong_last, meaning, meaning_form};
ghost use Rattle.wire.specs.Steps.{bytes_of};
ghost use Rattle.heads.specs.Stages.{stage_of, id_text, seek_heading, follow_heading, heading, head_answer};

use wire::{Counted, Refusal};

// The stage of the walk over slices: at the first slice; after skipped slices only; after a known slice, sliced or not, with its base row + 1, 0 for none.
#[derive(Clone, Copy)]
pub enum Stage {
    First,
    Seeking,
    Following(bool, usize),
}

// What flags and type ID mean: skip the slice, after so many bytes taken; or the slice of a known row, with its bit 2, whether it is sliced, and the bytes taken.
#[derive(Clone, Copy)]
pub enum Heading {
    Skip(usize),
    Known {
        row: usize,
        optionals: bool,
        sliced: bool,
        bytes: usize,
    },
}

// The format differs from that of the slice before.
fn mixed(stage: Stage, flags: usize) -> bool
    ensures { result ≡ mixed (stand_of (stage_of stage)) flags }
{
    let size = wire::has_size(flags);
    match stage {
        Stage::First => false,
        Stage::Seeking => !size,
        Stage::Following(sliced, b) => sliced != size,
    }
}

// A type ID is due.
fn due(stage: Stage, flags: usize) -> bool
    ensures { result ≡ due (stand_of (stage_of stage)) (format_of_flags flags) }
{
    let size = wire::has_size(flags);
    match stage {
        Stage::First => true,
        Stage::Seeking => size,
        Stage::Following(sliced, b) => size,
    }
}

// The judgements of the flags: 14 for bits 6-7, a mixed format, a missing or a needless ID; 13 for bit 3 and ID form 2 or 3; else 0.
fn flag_form(stage: Stage, flags: usize) -> usize
    ensures { result ≡ flag_form (stand_of (stage_of stage)) flags }
{
    if wire::has_unused(flags) {
        return 14;
    }
    if mixed(stage, flags) {
        return 14;
    }
    let id = wire::id_form(flags);
    if due(stage, flags) == (id == 0) {
        return 14;
    }
    if wire::has_table(flags) {
        return 13;
    }
    if 1 < id {
        return 13;
    }
    0
}

// A type ID if one is due, else no bytes.
fn id_text(due: bool, s: &[u8]) -> Result<Counted, Refusal>
    ensures { result ≡ bytes_of (id_text due s.now) }
{
    if due {
        return text::read_string(s);
    }
    Ok(Counted {
        number: 0,
        bytes: 0,
    })
}

// Bit 5 (the last slice) is set on a row with a base, or not set on one without. Here and below, `begin` is where the type rows begin.
fn wrong_last(table: &[u8], begin: usize, t: usize, last: bool) -> bool
    requires { begin ≡ types_at table.now }
    ensures { result ≡ wrong_last table.now t last }
{
    last != (table::chain::base(table, begin, t) == 0)
}

// An ID before the first known slice. Unknown: skipped, or 15, or 16. Known: the top or below it, or 17.
fn seek_heading(
    table: &[u8],
    begin: usize,
    top: usize,
    flags: usize,
    id: &[u8],
    n: usize,
) -> Result<Heading, Refusal>
    requires { begin ≡ types_at table.now }
    ensures { result ≡ seek_heading table.now top flags id.now n }
{
    let size = wire::has_size(flags);
    let last = wire::is_last(flags);
    match table::naming::named(table, id) {
        Some(t) => {
            if table::chain::in_chain(table, t, top) {
                if wrong_last(table, begin, t, last) {
                    return Err(Refusal {
                        number: 17,
                        place: 0,
                    });
                }
                return Ok(Heading::Known {
                    row: t,
                    optionals: wire::has_optionals(flags),
                    sliced: size,
                    bytes: n,
                });
            }
            Err(Refusal {
                number: 17,
                place: 0,
            })
        }
        None => {
            if size {
                if last {
                    return Err(Refusal {
                        number: 16,
                        place: 0,
                    });
                }
                return Ok(Heading::Skip(n));
            }
            Err(Refusal {
                number: 15,
                place: 1,
            })
        }
    }
}

// There is an ID, and it is not the name of row t.
fn other_id(table: &[u8], begin: usize, sliced: bool, t: usize, id: &[u8]) -> bool
    requires { begin ≡ types_at table.now }
    ensures { result ≡ sliced && not (same_bytes id.now (name_of table.now t)) }
{
    if sliced {
        return !table::naming::is_named(table, begin, t, id);
    }
    false
}

// An ID after a known slice: that of its base row, b - 1, or 17.
fn follow_heading(
    table: &[u8],
    begin: usize,
    sliced: bool,
    b: usize,
    flags: usize,
    id: &[u8],
    n: usize,
) -> Result<Heading, Refusal>
    requires { begin ≡ types_at table.now }
    ensures { result ≡ follow_heading table.now sliced b flags id.now n }
{
    if b == 0 {
        return Err(Refusal {
            number: 17,
            place: 0,
        });
    }
    if other_id(table, begin, sliced, b - 1, id) {
        return Err(Refusal {
            number: 17,
            place: 0,
        });
    }
    if wrong_last(table, begin, b - 1, wire::is_last(flags)) {
        return Err(Refusal {
            number: 17,
            place: 0,
        });
    }
    Ok(Heading::Known {
        row: b - 1,
        optionals: wire::has_optionals(flags),
        sliced: wire::has_size(flags),
        bytes: n,
    })
}

// What flags and ID mean at this stage, n bytes taken.
fn heading_at(
    table: &[u8],
    begin: usize,
    top: usize,
    stage: Stage,
    flags: usize,
    id: &[u8],
    n: usize,
) -> Result<Heading, Refusal>
    requires { begin ≡ types_at table.now }
    ensures { result ≡ heading table.now top stage flags id.now n }
{
    match stage {
        Stage::Following(sliced, b) => follow_heading(table, begin, sliced, b, flags, id, n),
        _ => seek_heading(table, begin, top, flags, id, n),
    }
}

// Reads flags and type ID of the next slice: 14 and 13 for the flags, then the ID, then 15 to 17.
pub fn slice_head(
    table: &[u8],
    begin: usize,
    top: usize,
    stage: Stage,
    s: &[u8],
) -> Result<Heading, Refusal>
    requires { begin ≡ types_at table.now }
    ensures { result ≡ head_answer table.now top (stage_of stage) (must (λ h. meaning_form (meaning table.now top (stage_of stage) h)) (head (stand_of (stage_of stage)) (id_form table.now (stage_of stage))) s.now) }
{
    if s.len() < 1 {
        return Err(Refusal {
            number: 4,
            place: 0,
        });
    }
    let flags = wire::byte_at(s, 0);
    let c = flag_form(stage, flags);
    if c != 0 {
        return Err(Refusal {
            number: c,
            place: 0,
        });
    }
    let id = match id_text(due(stage, flags), &s[1..]) {
        Ok(id) => id,
        Err(refusal) => return Err(refusal.behind(1)),
    };
    let end = 1 + id.bytes;
    let start = end - id.number;
    heading_at(table, begin, top, stage, flags, &s[start..end], end)
}
