// Checks the rows, each 20 then 21, and measures the message that they make: nothing is put. Each function answers what its counterpart that puts would answer of an empty output.
ghost use Rattle.std.specs.Prelude.{◌≡◌, false, [], ◌+◌, ◌*◌, ◌≤◌, ◌<◌, length, eqb};
ghost use Rattle.encoding.specs.Table.{types_at, members_at, members, kind, field};
ghost use Rattle.encoding.specs.Message.{encapsulate};
ghost use Rattle.shapes.specs.Shapes.{shapes_of};
ghost use Rattle.pieces.specs.Cursors.{due_at, may_at};
ghost use Rattle.writer.specs.Slices.{IsOwner, encoding_as, end_mark, Grouping, RequiredsPut, RowsPut, PartPut};
ghost use Rattle.writer.specs.Messages.{lead_of, parts_of, contents_of, AllPut};

use crate::{Laid, Owner, laid_of, slice};
use pieces::judge;
use wire::Refusal;

// How far rows of required members were measured without a call: the end of their bytes, the next row, and how many member rows are passed.
#[derive(Clone, Copy)]
pub struct Begun {
    pub end: usize,
    pub row: usize,
    pub passed: usize,
}

// Measures the rows of the required members of owner o, from row `from` on, as far as no call is needed to see that they are right. No call of the value's cycle is in its loop, so its numbers stay in registers.
fn quick_requireds(
    table: &[u8],
    begin: usize,
    shapes: &[u8; 256],
    first: usize,
    start: usize,
    o: usize,
    a: usize,
    b: usize,
    from: usize,
    old: bool,
    count: usize,
    rows: &[u8],
    buffer: &[u8],
) -> Begun
    requires begin_value { begin ≡ types_at table.now }
    requires shapes_value { shapes.now ≡ shapes_of table.now }
    requires first_value { (first ≡ members_at table.now) × (first < 1048576) }
    requires a_value { (a ≡ field table.now o 0) × (b ≡ field table.now o 1) × (a < 65536) × (b < 65536) }
    requires start_bound { (start ≤ 576460752303423488) × (from ≤ count) × (count ≤ 4294967296) × (length buffer.now ≤ 65536) × (12 * count ≤ length rows.now) }
    ensures { (result.passed ≤ b) × Grouping table.now old rows.now buffer.now false count (due_at o 0) from start [] [] (due_at o result.passed) result.end result.row false [] }
{
    let limit = table::chain::whole(table, first, a + b);
    let mut at = start;
    let mut i = from;
    let mut k = 0;
    // Stays: the member row and the row at which it stops are its answer.
    while a + k < limit {
        let member = table::member_row_in(table, first, a + k);
        if member.mark != 0 {
            k += 1;
            continue;
        }
        if count <= i {
            break;
        }
        let d = judge::quick_due(
            table,
            begin,
            shapes,
            at,
            o,
            k,
            a + k,
            member.of,
            old,
            rows,
            i,
            buffer,
        );
        match d {
            Ok(end) => {
                at = end;
                i += 1;
                k += 1;
            }
            Err(number) => {
                break;
            }
        }
    }
    Begun {
        end: at,
        row: i,
        passed: k,
    }
}

// Checks and measures the rows of the required members of owner o, from row `from` on. Its member rows are the b rows from a on.
fn measure_requireds(
    table: &[u8],
    begin: usize,
    shapes: &[u8; 256],
    first: usize,
    all: usize,
    start: usize,
    o: usize,
    a: usize,
    b: usize,
    from: usize,
    old: bool,
    count: usize,
    rows: &[u8],
    buffer: &[u8],
) -> Laid
    requires begin_value { begin ≡ types_at table.now }
    requires shapes_value { shapes.now ≡ shapes_of table.now }
    requires first_value { (first ≡ members_at table.now) × (first < 1048576) × (all ≡ members table.now) }
    requires a_value { (a ≡ field table.now o 0) × (b ≡ field table.now o 1) × (a < 65536) × (b < 65536) }
    requires start_bound { (start ≤ 576460752303423488) × (from ≤ count) × (count ≤ 4294967296) × (length buffer.now ≤ 65536) × (12 * count ≤ length rows.now) }
    ensures { RequiredsPut table.now old rows.now buffer.now false count o from start [] [] result }
{
    let q = quick_requireds(
        table, begin, shapes, first, start, o, a, b, from, old, count, rows, buffer,
    );
    let mut at = q.end;
    let mut i = q.row;
    for k in q.passed..b {
        if table::mark_from(table, first, a + k) != 0 {
            continue;
        }
        if count <= i {
            return laid_of(at, i, false, 20);
        }
        let d = judge::due(
            table,
            begin,
            shapes,
            all,
            at,
            o,
            k,
            a + k,
            table::type_from(table, first, a + k),
            old,
            rows,
            i,
            buffer,
        );
        match d {
            Ok(end) => {
                at = end;
                i += 1;
            }
            Err(number) => {
                return laid_of(at, i, false, number);
            }
        }
    }
    laid_of(at, i, false, 0)
}

// Checks and measures the rows of optional members of owner o, from row `from` on.
fn measure_optionals(
    table: &[u8],
    begin: usize,
    shapes: &[u8; 256],
    first: usize,
    all: usize,
    start: usize,
    o: usize,
    a: usize,
    b: usize,
    from: usize,
    old: bool,
    count: usize,
    rows: &[u8],
    buffer: &[u8],
) -> Laid
    requires begin_value { begin ≡ types_at table.now }
    requires shapes_value { shapes.now ≡ shapes_of table.now }
    requires first_value { (first ≡ members_at table.now) × (first < 1048576) × (all ≡ members table.now) }
    requires a_value { (a ≡ field table.now o 0) × (b ≡ field table.now o 1) × (a < 65536) × (b < 65536) }
    requires start_bound { (start ≤ 864691128455135232) × (from ≤ count) × (count ≤ 4294967296) × (length buffer.now ≤ 65536) × (12 * count ≤ length rows.now) }
    ensures { RowsPut table.now old rows.now buffer.now false count (may_at table.now o 0) from start [] [] result }
{
    let mut at = start;
    let mut least = 0;
    let mut optionals = false;
    for i in from..count {
        let answer = match judge::may(
            table, begin, shapes, first, all, at, o, a, b, least, old, rows, i, buffer,
        ) {
            Ok(answer) => answer,
            Err(number) => {
                return laid_of(at, i, optionals, number);
            }
        };
        match answer {
            Some(placed) => {
                at = placed.end;
                least = placed.tag + 1;
                optionals = true;
            }
            None => {
                return laid_of(at, i, optionals, 0);
            }
        }
    }
    laid_of(at, count, optionals, 0)
}

// How many bytes the end marker takes, which a slice has after optionals.
fn end_len(optionals: bool) -> usize
    ensures { (result ≡ length (end_mark optionals)) × (result ≤ 1) }
{
    if optionals {
        return 1;
    }
    0
}

// Checks the rows of owner o and measures its slice; of a parameter list the rows alone.
fn measure_part(
    table: &[u8],
    begin: usize,
    shapes: &[u8; 256],
    first: usize,
    all: usize,
    at: usize,
    o: usize,
    owner: Owner,
    list: bool,
    last: bool,
    from: usize,
    old: bool,
    count: usize,
    rows: &[u8],
    buffer: &[u8],
) -> Laid
    requires begin_value { begin ≡ types_at table.now }
    requires shapes_value { shapes.now ≡ shapes_of table.now }
    requires first_value { (first ≡ members_at table.now) × (first < 1048576) × (all ≡ members table.now) }
    requires owner { IsOwner table.now o owner }
    requires at_bound { (at ≤ 288230376151711744) × (from ≤ count) × (count ≤ 4294967296) × (length buffer.now ≤ 65536) × (12 * count ≤ length rows.now) }
    ensures { PartPut table.now old rows.now buffer.now false count list last o from at [] [] result }
{
    let start = at + slice::front_len(table, o, owner, list, old);
    let required = measure_requireds(
        table, begin, shapes, first, all, start, o, owner.a, owner.b, from, old, count, rows,
        buffer,
    );
    if required.fault != 0 {
        return required;
    }
    let d = measure_optionals(
        table,
        begin,
        shapes,
        first,
        all,
        required.end,
        o,
        owner.a,
        owner.b,
        required.row,
        old,
        count,
        rows,
        buffer,
    );
    if d.fault != 0 {
        return d;
    }
    if list {
        return d;
    }
    laid_of(d.end + end_len(d.optionals), d.row, d.optionals, 0)
}

// Checks the rows and measures the members of a parameter list t, or the slices of row t and its bases.
fn measure_parts(
    table: &[u8],
    begin: usize,
    shapes: &[u8; 256],
    start: usize,
    t: usize,
    list: bool,
    old: bool,
    count: usize,
    rows: &[u8],
    buffer: &[u8],
) -> Result<usize, Refusal>
    requires begin_value { begin ≡ types_at table.now }
    requires shapes_value { shapes.now ≡ shapes_of table.now }
    requires list_value { list ≡ eqb (kind table.now t) 15 }
    requires start_bound { (start ≤ 7) × (t < 65536) × (count ≤ 4294967296) × (length buffer.now ≤ 65536) × (12 * count ≤ length rows.now) }
    ensures { AllPut table.now old rows.now buffer.now false count t start (parts_of table.now old list rows.now buffer.now count t) [] [] result }
{
    let first = table::members_at(table, begin);
    let all = table::members(table);
    let labels = table::names_at(table, begin);
    let mut at = start;
    let mut o = t;
    let mut i = 0;
    loop {
        let owner = slice::owner_at(table, begin, labels, o);
        let d = measure_part(
            table,
            begin,
            shapes,
            first,
            all,
            at,
            o,
            owner,
            list,
            owner.up == 0,
            i,
            old,
            count,
            rows,
            buffer,
        );
        if d.fault != 0 {
            return Err(Refusal {
                number: d.fault,
                place: d.row,
            });
        }
        if owner.up == 0 {
            if d.row < count {
                return Err(Refusal {
                    number: 20,
                    place: d.row,
                });
            }
            return Ok(d.end);
        }
        at = d.end;
        o = owner.up - 1;
        i = d.row;
    }
}

// How many bytes come before the members or slices: the marker of a class instance, in 1.0 the header byte of an exception.
fn lead_len(k: usize, old: bool) -> usize
    ensures { (result ≡ length (lead_of k old)) × (result ≤ 1) }
{
    if k == 15 {
        return 0;
    }
    if k == 14 {
        return 1;
    }
    if old {
        return 1;
    }
    0
}

// Checks the rows and measures the message.
pub fn measure(
    table: &[u8],
    begin: usize,
    shapes: &[u8; 256],
    t: usize,
    old: bool,
    count: usize,
    rows: &[u8],
    buffer: &[u8],
) -> Result<usize, Refusal>
    requires begin_value { begin ≡ types_at table.now }
    requires shapes_value { shapes.now ≡ shapes_of table.now }
    requires t_bound { (t < 65536) × (count ≤ 4294967296) × (length buffer.now ≤ 65536) × (12 * count ≤ length rows.now) }
    ensures { AllPut table.now old rows.now buffer.now false count t 0 (encapsulate (encoding_as old) (contents_of table.now old rows.now buffer.now count t)) [] [] result }
{
    let k = table::kind(table, begin, t);
    let lead = lead_len(k, old);
    measure_parts(
        table,
        begin,
        shapes,
        6 + lead,
        t,
        k == 15,
        old,
        count,
        rows,
        buffer,
    )
}
