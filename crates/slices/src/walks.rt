// The walk over the slices of a record, and its steps.
ghost use Rattle.std.specs.Prelude.{◌≡◌, ◌&&◌, not, ℕ, ◌+◌, ◌^◌, ◌≤◌, ◌<◌, eqb, length, drop};
ghost use Rattle.encoding.specs.Result.{ok, pick};
ghost use Rattle.encoding.specs.Table.{types_at, members_at};
ghost use Rattle.encoding.specs.Slice.{sliced as in_slices, compact, format_number, Chain, slices};
ghost use Rattle.shapes.specs.Shapes.{shapes_of};
ghost use Rattle.table.specs.Rows.{Whole};
ghost use Rattle.table.specs.Tags.{optional_from};
ghost use Rattle.level.specs.Fill.{fill};
ghost use Rattle.heads.specs.Stages.{stage_of};
ghost use Rattle.slices.specs.Openings.{opening, turn_of, first_or};
ghost use Rattle.slices.specs.Left.{stop_at};
ghost use Rattle.slices.specs.Walks.{chain_rows, slice_walk};

use crate::{Opening, Walk};
use heads::{Heading, Stage};
use level::Optional;
use wire::Refusal;

// The next slice up to its data: skipped whole, or of a known row with the part that its data lie in. `begin` is where the type rows begin.
fn opening(
    table: &[u8],
    begin: usize,
    top: usize,
    stage: Stage,
    s: &[u8],
) -> Result<Opening, Refusal>
    requires { begin ≡ types_at table.now }
    ensures { result ≡ opening table.now top (stage_of stage) s.now }
{
    let head = heads::slice_head(table, begin, top, stage, s)?;
    match head {
        Heading::Skip(n) => {
            let end = wire::later(n, wire::read_declared(&s[n..], 4, 4))?;
            Ok(Opening::Skip(end))
        }
        Heading::Known {
            row,
            optionals,
            sliced,
            bytes,
        } => {
            if sliced {
                let end = wire::later(bytes, wire::read_declared(&s[bytes..], 4, 4))?;
                return Ok(Opening::Known {
                    row,
                    optionals,
                    sliced,
                    start: bytes + 4,
                    end,
                });
            }
            Ok(Opening::Known {
                row,
                optionals,
                sliced,
                start: bytes,
                end: s.len(),
            })
        }
    }
}

// Reads the next optional; none is left at the end marker (14 if no optional came before it). A tag is looked up among the member rows from `row` to `stop`; `begin` is where the type rows begin, `first` where the member rows do.
fn next(
    table: &[u8],
    begin: usize,
    first: usize,
    shapes: &[u8; 256],
    stop: usize,
    row: usize,
    least: usize,
    s: &[u8],
) -> Result<Option<Optional>, Refusal>
    requires begin_value { begin ≡ types_at table.now }
    requires first_value { (first ≡ members_at table.now) × (first < 1048576) }
    requires shapes_value { shapes.now ≡ shapes_of table.now }
    requires stop_bound { stop ≤ 131072 }
    ensures { result ≡ turn_of (optional_from table.now stop row) least s.now }
{
    if wire::byte_at(s, 0) == 255 {
        if least == 0 {
            return Err(Refusal {
                number: 14,
                place: 0,
            });
        }
        return Ok(None);
    }
    let optional = level::optionals::optional(table, begin, first, shapes, stop, row, least, s)?;
    Ok(Some(optional))
}

// The same; a simple optional is read without a call. The member rows before `limit` lie inside the table.
fn quick_next(
    table: &[u8],
    begin: usize,
    first: usize,
    limit: usize,
    shapes: &[u8; 256],
    stop: usize,
    row: usize,
    least: usize,
    s: &[u8],
) -> Result<Option<Optional>, Refusal>
    requires begin_value { begin ≡ types_at table.now }
    requires first_value { (first ≡ members_at table.now) × (first < 1048576) }
    requires whole { (0 < limit → Whole table.now limit) × (limit ≤ stop) }
    requires shapes_value { shapes.now ≡ shapes_of table.now }
    requires stop_bound { stop ≤ 131072 }
    ensures { result ≡ turn_of (optional_from table.now stop row) least s.now }
{
    if wire::byte_at(s, 0) != 255 {
        let p = level::optionals::any_simple(table, first, limit, shapes, stop, row, least, s);
        if p.bytes != 0 {
            return Ok(Some(Optional::Known {
                member: row,
                tag: p.tag,
                start: p.head,
                bytes: p.bytes,
            }));
        }
    }
    next(table, begin, first, shapes, stop, row, least, s)
}

// A refusal of what comes n bytes on stops the walk, inside a slice whose flags are at a place: 14 is at its flags.
#[tactic(auto, using(crate::proofs::Steps::recall_flags, crate::proofs::Steps::recall_place))]
fn stopped(flags: usize, refusal: Refusal, n: usize) -> Walk
    requires { n + refusal.place < 2 ^ 64 }
    ensures { result ≡ stop_at flags n refusal }
{
    if refusal.number == 14 {
        return Walk::Stop(14, flags);
    }
    Walk::Stop(refusal.number, n + refusal.place)
}

// A sliced slice has bytes left over.
fn left_over(sliced: bool, at: usize, end: usize) -> bool
    ensures { result ≡ sliced && not (eqb at end) }
{
    if sliced {
        return at != end;
    }
    false
}

// The first known type after a slice of row t.
fn first_of(stage: Stage, first: usize, t: usize) -> usize
    ensures { result ≡ first_or (stage_of stage) first t }
{
    match stage {
        Stage::First => t,
        Stage::Seeking => t,
        Stage::Following(sliced, b) => first,
    }
}

// A format as a number.
fn format_number(sliced: bool) -> usize
    ensures { result ≡ format_number (pick sliced in_slices compact) }
{
    if sliced { 1 } else { 0 }
}

// The slices of a record from a place on, with a row for each known member. `begin` is where the table's type rows begin.
pub fn slices(
    table: &[u8],
    begin: usize,
    shapes: &[u8; 256],
    top: usize,
    m: &[u8],
    start: usize,
    out: &mut [u8],
) -> Walk
    requires begin_value { begin ≡ types_at table.now }
    requires start_in_bounds { start ≤ length m.now }
    requires shapes_value { shapes.now ≡ shapes_of table.now }
    ensures value { result ≡ slice_walk table.now start (slices table.now top (drop start m.now)) }
    ensures out_len_unchanged { length out.new ≡ length out.old }
    ensures out_after { (c : Chain) (n : ℕ) → slices table.now top (drop start m.now) ≡ ok c n → out.new ≡ fill 0 (chain_rows table.now start c) out.old }
{
    let place = table::members_at(table, begin);
    let mut stage = Stage::First;
    let mut pos = start;
    let mut count = 0;
    let mut optionals = 0;
    let mut skipped = 0;
    let mut first = 0;
    'slices: loop {
        let o = match opening(table, begin, top, stage, &m[pos..]) {
            Ok(o) => o,
            Err(refusal) => return stopped(pos, refusal, pos),
        };
        match o {
            Opening::Skip(n) => {
                stage = Stage::Seeking;
                pos += n;
                skipped += 1;
            }
            Opening::Known {
                row: t,
                optionals: has,
                sliced,
                start: a,
                end: e,
            } => {
                let from = pos + a;
                let end = pos + e;
                let members = match level::required(
                    table,
                    begin,
                    shapes,
                    t,
                    &m[from..end],
                    from,
                    count,
                    out,
                    false,
                ) {
                    Ok(members) => members,
                    Err(refusal) => return stopped(pos, refusal, from),
                };
                let stop = table::chain::member_end(table, begin, t);
                let limit = table::chain::whole(table, place, stop);
                count = members.count;
                let mut at = from + members.bytes;
                let mut least = 0;
                let mut row = members.optional;
                let mut more = has;
                while more {
                    let next = match quick_next(
                        table,
                        begin,
                        place,
                        limit,
                        shapes,
                        stop,
                        row,
                        least,
                        &m[at..end],
                    ) {
                        Ok(next) => next,
                        Err(refusal) => return stopped(pos, refusal, at),
                    };
                    match next {
                        None => {
                            at += 1;
                            more = false;
                        }
                        Some(optional) => match optional {
                            Optional::Known {
                                member,
                                tag,
                                start: b,
                                bytes,
                            } => {
                                wire::rows::put_row(out, count, member, at + b, bytes - b);
                                count += 1;
                                at += bytes;
                                least = tag + 1;
                                row = table::chain::behind(table, place, row, member, tag);
                            }
                            Optional::Skipped { tag, bytes } => {
                                optionals += 1;
                                at += bytes;
                                least = tag + 1;
                            }
                        },
                    }
                }
                if left_over(sliced, at, end) {
                    return Walk::Stop(11, from - 4);
                }
                first = first_of(stage, first, t);
                let b = table::chain::base(table, begin, t);
                if b == 0 {
                    return Walk::Done(first, format_number(sliced), count, optionals, skipped, at);
                }
                stage = Stage::Following(sliced, b);
                pos = at;
            }
        }
    }
}
