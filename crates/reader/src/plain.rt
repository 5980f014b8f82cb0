// Parameter lists of encoding 1.1 whose members may be any bytes, as most reports are: read without a call, for a caller that reads many messages under one table and top.
ghost use Rattle.std.specs.Prelude.{◌≡◌, ◌-◌, ◌≤◌, ◌<◌, length};
ghost use Rattle.encoding.specs.Table.{types_at, members_at};
ghost use Rattle.table.specs.Rows.{Whole};
ghost use Rattle.table.specs.Tags.{first_required};
ghost use Rattle.shapes.specs.Shapes.{shapes_of};
ghost use Rattle.reader.specs.Takes.{Takes};
ghost use Rattle.reader.specs.Seats.{Seated, PlainMembers, PlainList};

use crate::Seat;

// What is found of table and top. `begin` is where the type rows begin.
pub fn seat(table: &[u8], begin: usize, top: usize) -> Seat
    requires { begin ≡ types_at table.now }
    ensures { Seated table.now top result }
{
    let old = crate::judge_old(table, begin, top);
    let row = table::type_row(table, begin, top);
    let first = table::members_at(table, begin);
    let kind = row.kind;
    let from = row.a;
    let stop = row.a + row.b;
    if kind == 15 {
        if table::chain::whole(table, first, stop) == stop {
            return Seat {
                old,
                first,
                from,
                stop,
                bare: table::chain::bare_from(table, first, from, stop),
            };
        }
    }
    Seat {
        old,
        first,
        from,
        stop: 0,
        bare: 0,
    }
}

// The members of a list, from place 6 on: the rows put and one more, if each may be any bytes, or if the last one is a sequence of such values; else 0. The list takes member rows `from` to `stop` - 1, of which none from `bare` on is required.
fn members(
    table: &[u8],
    top: usize,
    first: usize,
    from: usize,
    stop: usize,
    bare: usize,
    shapes: &[u8; 256],
    m: &[u8],
    out: &mut [u8],
) -> usize
    requires first_value { first ≡ members_at table.now }
    requires takes { Takes table.now top from stop }
    requires whole { 0 < stop → Whole table.now stop }
    requires bare_value { first_required table.now bare (stop - bare) ≡ stop }
    requires shapes_value { shapes.now ≡ shapes_of table.now }
    requires in_bounds { 6 ≤ length m.now }
    ensures { PlainMembers table.now top m.now result out.old out.new }
{
    let b = level::simples(table, first, shapes, top, from, stop, &m[6..], 6, 0, out);
    let bytes = b.bytes;
    let count = b.count;
    let row = b.row;
    if row < bare {
        if stop <= row {
            return 0;
        }
        let begin = table::types_at(table);
        let place = table::members_at(table, begin);
        let at = 6 + bytes;
        let left = m.len() - at;
        let n = level::last_log(
            table,
            begin,
            place,
            stop,
            shapes,
            row,
            stop,
            &m[at..],
            at,
            count,
            out,
        );
        if n == 0 {
            return 0;
        }
        if n != left {
            return 0;
        }
        return 2 + count;
    }
    let r = crate::lists::quick(
        table,
        first,
        stop,
        shapes,
        top,
        stop,
        m,
        6 + bytes,
        count,
        row,
        out,
    );
    let at = r.at;
    let rows = r.count;
    if at < m.len() {
        return 0;
    }
    1 + rows
}

// The rows put and one more, if the message is such a list; else 0, which says nothing of the message, and rows may have been put.
// Wrong and ruled out: a list of encoding 1.0 read as one of 1.1; one that ends before a required member.
pub fn plain(
    table: &[u8],
    top: usize,
    seat: Seat,
    shapes: &[u8; 256],
    m: &[u8],
    out: &mut [u8],
) -> usize
    requires seated { Seated table.now top seat }
    requires shapes_value { shapes.now ≡ shapes_of table.now }
    ensures { PlainList table.now top m.now result out.old out.new }
{
    if seat.stop == 0 {
        return 0;
    }
    if m.len() < 6 {
        return 0;
    }
    if wire::int_at(m, 0) != m.len() {
        return 0;
    }
    if wire::short_at(m, 4) != 257 {
        return 0;
    }
    members(
        table, top, seat.first, seat.from, seat.stop, seat.bare, shapes, m, out,
    )
}
