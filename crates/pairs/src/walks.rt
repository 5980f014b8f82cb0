// The walk over pairs, and its steps. Here, `begin` is where the type rows begin, and `due` the row + 1 whose pair is due, 0 where no pair was known yet.
ghost use Rattle.std.specs.Prelude.{◌≡◌, List, ℕ, ◌+◌, ◌^◌, ◌≤◌, ◌<◌, length, drop};
ghost use Rattle.encoding.specs.Result.{ok};
ghost use Rattle.encoding.specs.Number.{declared};
ghost use Rattle.encoding.specs.Table.{types_at};
ghost use Rattle.encoding.specs.Slice.{Slice};
ghost use Rattle.encoding.specs.Old.{PairStage, pair_meaning, id_pair, id_pairs};
ghost use Rattle.shapes.specs.Shapes.{shapes_of};
ghost use Rattle.level.specs.Fill.{fill};
ghost use Rattle.slices.specs.Walks.{pair_rows, pair_walk};
ghost use Rattle.pairs.specs.Pairs.{due_of, meant_of, data_as, opening, turn_of, turn_rows, first_by};

use crate::{Opening, Turn};
use slices::Walk;
use wire::Refusal;

// The row that a type ID means before the first known pair: none if it is unknown, or the top or one below it, or 17.
fn first_meaning(table: &[u8], top: usize, id: &[u8]) -> Result<Option<usize>, Refusal>
    ensures { result ≡ meant_of (pair_meaning table.now top (due_of 0) id.now) }
{
    match table::naming::named(table, id) {
        Some(t) => {
            if table::chain::in_chain(table, t, top) {
                return Ok(Some(t));
            }
            Err(Refusal {
                number: 17,
                place: 0,
            })
        }
        None => Ok(None),
    }
}

// The row that a type ID means, none if it is unknown; after a known pair it is the base's, or 17.
fn meaning(
    table: &[u8],
    begin: usize,
    top: usize,
    due: usize,
    id: &[u8],
) -> Result<Option<usize>, Refusal>
    requires { begin ≡ types_at table.now }
    ensures { result ≡ meant_of (pair_meaning table.now top (due_of due) id.now) }
{
    if due == 0 {
        return first_meaning(table, top, id);
    }
    if table::naming::is_named(table, begin, due - 1, id) {
        return Ok(Some(due - 1));
    }
    Err(Refusal {
        number: 17,
        place: 0,
    })
}

// What follows an ID of n bytes, by what it means: a size that counts itself, and the data.
fn entered(meant: Option<usize>, n: usize, s: &[u8]) -> Result<Opening, Refusal>
    requires { n ≤ length s.now }
    ensures { result ≡ data_as n meant (declared 4 4 (drop n s.now)) }
{
    let end = wire::later(n, wire::read_declared(&s[n..], 4, 4))?;
    match meant {
        None => Ok(Opening::Skip(end)),
        Some(row) => Ok(Opening::Data {
            row,
            start: n + 4,
            end,
        }),
    }
}

// The next pair up to its data: the ID, then what it means.
fn opening(table: &[u8], begin: usize, top: usize, due: usize, s: &[u8]) -> Result<Opening, Refusal>
    requires { begin ≡ types_at table.now }
    ensures { result ≡ opening table.now top (due_of due) s.now }
{
    let id = text::read_string(s)?;
    let start = id.bytes - id.number;
    let meant = meaning(table, begin, top, due, &s[start..id.bytes])?;
    entered(meant, id.bytes, s)
}

// One pair, with a row for each member of a known one; `at` is its place, `count` the rows before it. Its members use up its data, or 11.
fn pair(
    table: &[u8],
    begin: usize,
    shapes: &[u8; 256],
    top: usize,
    due: usize,
    s: &[u8],
    at: usize,
    count: usize,
    out: &mut [u8],
) -> Result<Turn, Refusal>
    requires begin_value { begin ≡ types_at table.now }
    requires shapes_value { shapes.now ≡ shapes_of table.now }
    requires s_bound { (at + length s.now < 2 ^ 63) × (count < 2 ^ 63) }
    ensures value { result ≡ turn_of table.now (due_of due) count (id_pair table.now top (due_of due) s.now) }
    ensures out_len_unchanged { length out.new ≡ length out.old }
    ensures out_after { (sl : Slice) (d : PairStage) (n : ℕ) → id_pair table.now top (due_of due) s.now ≡ ok (sl, d) n → out.new ≡ fill count (turn_rows table.now (due_of due) at sl) out.old }
{
    let o = opening(table, begin, top, due, s)?;
    match o {
        Opening::Skip(n) => Ok(Turn::Passed(n)),
        Opening::Data { row, start, end } => {
            let members = match level::required(
                table,
                begin,
                shapes,
                row,
                &s[start..end],
                at + start,
                count,
                out,
                true,
            ) {
                Ok(members) => members,
                Err(refusal) => return Err(refusal.behind(start)),
            };
            if start + members.bytes == end {
                return Ok(Turn::Known {
                    row,
                    count: members.count,
                    bytes: end,
                });
            }
            Err(Refusal {
                number: 11,
                place: start - 4,
            })
        }
    }
}

// The first known type after a pair of row t.
fn first_of(due: usize, first: usize, t: usize) -> usize
    ensures { result ≡ first_by (due_of due) first t }
{
    if due == 0 { t } else { first }
}

// The pairs of an exception from a place on, with a row for each known member. The row without a base is last.
// Wrong and ruled out: a size that does not count itself; a pair of another row taken for the base's.
pub fn pairs(
    table: &[u8],
    begin: usize,
    shapes: &[u8; 256],
    top: usize,
    m: &[u8],
    start: usize,
    out: &mut [u8],
) -> Walk
    requires begin_value { begin ≡ types_at table.now }
    requires start_in_bounds { start ≤ length m.now }
    requires shapes_value { shapes.now ≡ shapes_of table.now }
    ensures value { result ≡ pair_walk table.now start (id_pairs table.now top (drop start m.now)) }
    ensures out_len_unchanged { length out.new ≡ length out.old }
    ensures out_after { (ss : List Slice) (n : ℕ) → id_pairs table.now top (drop start m.now) ≡ ok ss n → out.new ≡ fill 0 (pair_rows table.now start ss) out.old }
{
    let mut due = 0;
    let mut pos = start;
    let mut count = 0;
    let mut skipped = 0;
    let mut first = 0;
    loop {
        let turn = match pair(table, begin, shapes, top, due, &m[pos..], pos, count, out) {
            Ok(turn) => turn,
            Err(refusal) => {
                return Walk::Stop(refusal.number, pos + refusal.place);
            }
        };
        match turn {
            Turn::Passed(n) => {
                pos += n;
                skipped += 1;
            }
            Turn::Known {
                row,
                count: k,
                bytes,
            } => {
                pos += bytes;
                count = k;
                first = first_of(due, first, row);
                due = table::chain::base(table, begin, row);
                if due == 0 {
                    return Walk::Done(first, 2, count, 0, skipped, pos);
                }
            }
        }
    }
}
