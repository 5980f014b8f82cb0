// The walk over a parameter list, in either encoding.
ghost use Rattle.std.specs.Prelude.{◌≡◌, true, List, ℕ, ◌≤◌, ◌<◌, length, drop};
ghost use Rattle.encoding.specs.Result.{ok};
ghost use Rattle.encoding.specs.Table.{types_at, members_at, required_members};
ghost use Rattle.encoding.specs.Optional.{Piece, requireds, next_optional};
ghost use Rattle.encoding.specs.Old.{members_as};
ghost use Rattle.encoding.specs.Message.{parameters, piece_rows};
ghost use Rattle.shapes.specs.Shapes.{shapes_of};
ghost use Rattle.table.specs.Rows.{Whole};
ghost use Rattle.table.specs.Tags.{optional_from};
ghost use Rattle.level.specs.Fill.{fill};
ghost use Rattle.level.specs.Answers.{optional_answer};
ghost use Rattle.slices.specs.Left.{Ends, listing};
ghost use Rattle.slices.specs.Walks.{list_walk, old_walk};
ghost use Rattle.reader.specs.Listing.{Listing};
ghost use Rattle.reader.specs.Takes.{Takes};

use level::Optional;
use slices::Walk;
use wire::Refusal;

// How far the optionals of a list were read without a call: the place, the rows there are, the least tag that may follow, and the member row that is looked at next.
#[derive(Clone, Copy)]
pub struct Reached {
    pub at: usize,
    pub count: usize,
    pub least: usize,
    pub row: usize,
}

// Reads the optionals of a list, from place `start` on, as far as they are simple and their tags below 30, and puts a row for each, from row `rows` on; the first is looked for at member row `from`. The list takes member rows up to `stop` - 1; those before `limit` lie inside the table, whose member rows begin at `first`.
// No call is in its loop, so its numbers stay in registers.
pub fn quick(
    table: &[u8],
    first: usize,
    limit: usize,
    shapes: &[u8; 256],
    top: usize,
    stop: usize,
    m: &[u8],
    start: usize,
    rows: usize,
    from: usize,
    out: &mut [u8],
) -> Reached
    requires first_value { first ≡ members_at table.now }
    requires whole { (0 < limit → Whole table.now limit) × (limit ≤ stop) }
    requires shapes_value { shapes.now ≡ shapes_of table.now }
    requires listing { Listing table.now top m.now (listing table.now top m.now start 0 rows 0 out.old) stop start 0 from rows 0 out.old }
    ensures listing_2 { Listing table.now top m.now (listing table.now top m.now start 0 rows 0 out.old) stop result.at result.least result.row result.count 0 out.new }
    ensures out_len_unchanged { length out.new ≡ length out.old }
{
    let mut at = start;
    let mut count = rows;
    let mut least = 0;
    let mut row = from;
    while at < m.len() {
        let o = level::optionals::simple(table, first, limit, shapes, stop, row, least, &m[at..]);
        let n = o.bytes;
        let tag = o.tag;
        if n == 0 {
            break;
        }
        wire::rows::put_row(out, count, row, at + 1, n - 1);
        count += 1;
        at += n;
        least = tag + 1;
        row += 1;
    }
    Reached {
        at,
        count,
        least,
        row,
    }
}

// The next optional of the list; a simple one is read without a call. `begin` is where the type rows begin.
fn next(
    table: &[u8],
    begin: usize,
    first: usize,
    limit: usize,
    shapes: &[u8; 256],
    stop: usize,
    row: usize,
    least: usize,
    s: &[u8],
) -> Result<Optional, Refusal>
    requires begin_value { begin ≡ types_at table.now }
    requires first_value { (first ≡ members_at table.now) × (first < 1048576) }
    requires whole { (0 < limit → Whole table.now limit) × (limit ≤ stop) }
    requires shapes_value { shapes.now ≡ shapes_of table.now }
    requires stop_bound { stop ≤ 131072 }
    ensures { result ≡ optional_answer (optional_from table.now stop row) (next_optional (optional_from table.now stop row) least s.now) }
{
    let o = level::optionals::any_simple(table, first, limit, shapes, stop, row, least, s);
    if o.bytes != 0 {
        return Ok(Optional::Known {
            member: row,
            tag: o.tag,
            start: o.head,
            bytes: o.bytes,
        });
    }
    level::optionals::optional(table, begin, first, shapes, stop, row, least, s)
}

// The optionals from a place on to the end of the list, with a row for each known one: `rows` rows are there, tags are at least `above`, and look-ups begin at member row `from`.
fn others(
    table: &[u8],
    begin: usize,
    first: usize,
    limit: usize,
    shapes: &[u8; 256],
    top: usize,
    stop: usize,
    m: &[u8],
    start: usize,
    rows: usize,
    above: usize,
    from: usize,
    out: &mut [u8],
) -> Walk
    requires begin_value { begin ≡ types_at table.now }
    requires first_value { (first ≡ members_at table.now) × (first < 1048576) }
    requires whole { (0 < limit → Whole table.now limit) × (limit ≤ stop) }
    requires shapes_value { shapes.now ≡ shapes_of table.now }
    requires listing { Listing table.now top m.now (listing table.now top m.now start above rows 0 out.old) stop start above from rows 0 out.old }
    ensures ends { Ends (listing table.now top m.now start above rows 0 out.old) result out.new }
    ensures out_len_unchanged { length out.new ≡ length out.old }
{
    let mut at = start;
    let mut count = rows;
    let mut optionals = 0;
    let mut least = above;
    let mut row = from;
    while at < m.len() {
        let answer = next(
            table,
            begin,
            first,
            limit,
            shapes,
            stop,
            row,
            least,
            &m[at..],
        );
        let optional = match answer {
            Ok(optional) => optional,
            Err(refusal) => return Walk::Stop(refusal.number, at + refusal.place),
        };
        match optional {
            Optional::Known {
                member,
                tag,
                start: head,
                bytes,
            } => {
                wire::rows::put_row(out, count, member, at + head, bytes - head);
                count += 1;
                at += bytes;
                least = tag + 1;
                row = table::chain::behind(table, first, row, member, tag);
            }
            Optional::Skipped { tag, bytes } => {
                optionals += 1;
                at += bytes;
                least = tag + 1;
            }
        }
    }
    Walk::Done(top, 1, count, optionals, 0, at)
}

// The optionals from a place on to the end of the list: first those of `quick`, then all others.
fn optionals(
    table: &[u8],
    begin: usize,
    first: usize,
    limit: usize,
    shapes: &[u8; 256],
    top: usize,
    stop: usize,
    m: &[u8],
    start: usize,
    rows: usize,
    from: usize,
    out: &mut [u8],
) -> Walk
    requires begin_value { begin ≡ types_at table.now }
    requires first_value { (first ≡ members_at table.now) × (first < 1048576) }
    requires whole { (0 < limit → Whole table.now limit) × (limit ≤ stop) }
    requires shapes_value { shapes.now ≡ shapes_of table.now }
    requires listing { Listing table.now top m.now (listing table.now top m.now start 0 rows 0 out.old) stop start 0 from rows 0 out.old }
    ensures ends { Ends (listing table.now top m.now start 0 rows 0 out.old) result out.new }
    ensures out_len_unchanged { length out.new ≡ length out.old }
{
    let r = quick(
        table, first, limit, shapes, top, stop, m, start, rows, from, out,
    );
    others(
        table, begin, first, limit, shapes, top, stop, m, r.at, r.count, r.least, r.row, out,
    )
}

// A parameter list from a place on: required members as declared, then optionals to the end, with a row for each known member. `begin` is where the table's type rows begin; the list takes member rows `from` to `stop` - 1.
pub fn list(
    table: &[u8],
    begin: usize,
    shapes: &[u8; 256],
    top: usize,
    from: usize,
    stop: usize,
    m: &[u8],
    start: usize,
    out: &mut [u8],
) -> Walk
    requires begin_value { begin ≡ types_at table.now }
    requires takes { Takes table.now top from stop }
    requires start_in_bounds { start ≤ length m.now }
    requires shapes_value { shapes.now ≡ shapes_of table.now }
    ensures value { result ≡ list_walk table.now top start (parameters table.now top (drop start m.now)) }
    ensures out_len_unchanged { length out.new ≡ length out.old }
    ensures out_after { (ps : List Piece) (n : ℕ) → parameters table.now top (drop start m.now) ≡ ok ps n → out.new ≡ fill 0 (piece_rows table.now top start ps) out.old }
{
    let first = table::members_at(table, begin);
    let limit = table::chain::whole(table, first, stop);
    let answer = level::required_simple(
        table,
        begin,
        first,
        limit,
        shapes,
        top,
        from,
        stop,
        &m[start..],
        start,
        0,
        out,
    );
    let members = match answer {
        Ok(members) => members,
        Err(refusal) => return Walk::Stop(refusal.number, start + refusal.place),
    };
    optionals(
        table,
        begin,
        first,
        limit,
        shapes,
        top,
        stop,
        m,
        start + members.bytes,
        members.count,
        members.optional,
        out,
    )
}

// A parameter list of encoding 1.0 from a place on: required members as declared, with a row for each.
pub fn old_list(
    table: &[u8],
    begin: usize,
    shapes: &[u8; 256],
    top: usize,
    m: &[u8],
    start: usize,
    out: &mut [u8],
) -> Walk
    requires begin_value { begin ≡ types_at table.now }
    requires start_in_bounds { start ≤ length m.now }
    requires shapes_value { shapes.now ≡ shapes_of table.now }
    ensures value { result ≡ old_walk table.now top start (requireds (members_as true (required_members table.now top)) (drop start m.now)) }
    ensures out_len_unchanged { length out.new ≡ length out.old }
    ensures out_after { (ps : List Piece) (n : ℕ) → requireds (members_as true (required_members table.now top)) (drop start m.now) ≡ ok ps n → out.new ≡ fill 0 (piece_rows table.now top start ps) out.old }
{
    match level::required(table, begin, shapes, top, &m[start..], start, 0, out, true) {
        Ok(members) => Walk::Done(top, 2, members.count, 0, 0, start + members.bytes),
        Err(refusal) => Walk::Stop(refusal.number, start + refusal.place),
    }
}
