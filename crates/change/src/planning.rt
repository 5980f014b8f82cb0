// What a change of a message comes to: the bytes to be exchanged, or the first refusal that applies.
ghost use Rattle.std.specs.Prelude.{◌≡◌, false, ◌&&◌, ◌||◌, not, ◌+◌, ◌≤◌, eqb, length};
ghost use Rattle.encoding.specs.Result.{pick};
ghost use Rattle.encoding.specs.Table.{types_at, ty_of};
ghost use Rattle.encoding.specs.Message.{rules};
ghost use Rattle.edit.specs.Change.{changed};
ghost use Rattle.shapes.specs.Shapes.{shapes_of};
ghost use Rattle.view.specs.Views.{view_answer};
ghost use Rattle.seek.specs.Located.{as_gap};
ghost use Rattle.change.specs.Planned.{is_part, compact_plan, fresh_form, at_spot, located_plan, sliced_plan, content_of, Ripe, PlannedFor};

use crate::Plan;
use seek::{Slot, Spot};
use slices::Walk;
use splice::Cut;
use view::View;

// The accepted message lists the member. Only 50 of a compact record needs it: there no slice can be passed by its size.
fn is_listed(table: &[u8], top: u32, message: &[u8], member: u32) -> bool
    ensures { result ≡ is_part (view_answer table.now top message.now member) }
{
    let mut none = [0u8; 12];
    let v = view::member_numbers(table, top, message, member, &mut none);
    match v {
        View::Part(p, n) => true,
        View::Fallback => false,
        View::Nothing => false,
        View::Refused(c, p) => false,
    }
}

// 51 of a compact record, after 50 where a member is removed that it does not list.
fn of_compact(table: &[u8], top: u32, message: &[u8], member: u32, setting: bool) -> Plan
    ensures { result ≡ compact_plan setting (is_part (view_answer table.now top message.now member)) }
{
    if setting {
        return Plan::Stop(51, 0);
    }
    if is_listed(table, top, message, member) {
        return Plan::Stop(51, 0);
    }
    Plan::Stop(50, 0)
}

// 3 and 21 of the new bytes, of type row t; 0 if neither applies.
fn fresh_form(
    table: &[u8],
    begin: usize,
    shapes: &[u8; 256],
    t: usize,
    setting: bool,
    bytes: &[u8],
) -> usize
    requires begin_value { begin ≡ types_at table.now }
    requires shapes_value { shapes.now ≡ shapes_of table.now }
    ensures { result ≡ fresh_form setting (ty_of table.now t) bytes.now }
{
    if setting {
        if 65536 < bytes.len() {
            return 3;
        }
        if value::exact_value(table, begin, shapes, t, bytes, false) {
            return 0;
        }
        return 21;
    }
    0
}

// One of two holds: optionals remain if one is set or there are others.
fn either(a: bool, b: bool) -> bool
    ensures { result ≡ a || b }
{
    if a { true } else { b }
}

// The end of the bytes that go: with a slice's last optional its end marker goes too.
fn cut_end(sliced: bool, flagged: bool, to: usize) -> usize
    requires { to ≤ 65536 }
    ensures { result ≡ pick sliced (pick flagged to (to + 1)) to }
{
    if sliced {
        if flagged {
            return to;
        }
        return to + 1;
    }
    to
}

// A slice's first optional brings an end marker.
fn has_marker(sliced: bool, setting: bool, empty: bool, others: bool) -> bool
    ensures { result ≡ sliced && (setting && (empty && not others)) }
{
    if sliced {
        if setting {
            if empty {
                return !others;
            }
        }
    }
    false
}

// What is to be removed is not there.
fn is_gone(setting: bool, from: usize, to: usize) -> bool
    ensures { result ≡ not setting && eqb from to }
{
    if setting { false } else { from == to }
}

// The exchange at a spot of an owner's members, which begin at place `a`; 50 where what is to be removed is not there.
fn at_spot(
    flags: usize,
    size: usize,
    end: usize,
    a: usize,
    x: Spot,
    tag: usize,
    form: usize,
    setting: bool,
) -> Plan
    requires { (a ≤ 65536) × (x.to ≤ 65536) × (x.from ≤ 65536) }
    ensures { result ≡ at_spot flags size end a (as_gap x) tag form setting }
{
    let from = x.from;
    let to = x.to;
    let others = x.others;
    if is_gone(setting, from, to) {
        return Plan::Stop(50, 0);
    }
    let sliced = 0 < end;
    let empty = from == to;
    let flagged = either(setting, others);
    let last = a + cut_end(sliced, flagged, to);
    let marker = has_marker(sliced, setting, empty, others);
    Plan::Make(Cut {
        flags: flags,
        size: size,
        end: end,
        from: a + from,
        to: last,
        tag: tag,
        form: form,
        setting: setting,
        flagged: flagged,
        marker: marker,
    })
}

// A change of a member of owner o, in a parameter list or a sliced record under a top of kind k.
fn located(
    table: &[u8],
    begin: usize,
    shapes: &[u8; 256],
    k: usize,
    o: usize,
    message: &[u8],
    tag: usize,
    form: usize,
    setting: bool,
) -> Plan
    requires begin_value { begin ≡ types_at table.now }
    requires shapes_value { shapes.now ≡ shapes_of table.now }
    requires in_bounds { (6 ≤ length message.now) × (length message.now ≤ 65536) }
    ensures { result ≡ located_plan table.now k o message.now tag form setting }
{
    let s = seek::members_in(table, begin, k, o, message);
    match s {
        Slot::List => {
            let x = seek::optional_in(table, begin, shapes, o, tag, &message[6..]);
            at_spot(0, 0, 0, 6, x, tag, form, setting)
        }
        Slot::At { flags, size, end } => {
            let a = size + 4;
            let x = seek::optional_in(table, begin, shapes, o, tag, &message[a..end]);
            at_spot(flags, size, end, a, x, tag, form, setting)
        }
        Slot::Nothing => Plan::Stop(49, 0),
    }
}

// A change of member row m of owner o, in a parameter list or a sliced record: 3 and 21, then the exchange.
fn of_sliced(
    table: &[u8],
    begin: usize,
    shapes: &[u8; 256],
    top: usize,
    o: usize,
    message: &[u8],
    m: usize,
    setting: bool,
    bytes: &[u8],
) -> Plan
    requires begin_value { begin ≡ types_at table.now }
    requires shapes_value { shapes.now ≡ shapes_of table.now }
    requires in_bounds { (6 ≤ length message.now) × (length message.now ≤ 65536) }
    ensures { result ≡ sliced_plan table.now top o message.now m setting bytes.now }
{
    let t = table::type_of_member(table, begin, m);
    let c = fresh_form(table, begin, shapes, t, setting, bytes);
    if c != 0 {
        return Plan::Stop(c, 0);
    }
    let first = table::members_at(table, begin);
    let row = table::member_row(table, first, m);
    let k = table::kind(table, begin, top);
    let form = shapes::form(shapes, t);
    located(table, begin, shapes, k, o, message, row.tag, form, setting)
}

// A change of an accepted message: 49, for every member of one of 1.0; then 50 and 51 of a compact record, or the rest.
fn accepted(
    table: &[u8],
    begin: usize,
    shapes: &[u8; 256],
    top: u32,
    first: usize,
    format: usize,
    message: &[u8],
    member: u32,
    setting: bool,
    bytes: &[u8],
) -> Plan
    requires begin_value { begin ≡ types_at table.now }
    requires shapes_value { shapes.now ≡ shapes_of table.now }
    requires in_bounds { (6 ≤ length message.now) × (length message.now ≤ 65536) }
    ensures { PlannedFor table.now top first format message.now member setting bytes.now result }
{
    if format == 2 {
        return Plan::Stop(49, 0);
    }
    let m = member as usize;
    match seek::owner(table, begin, first, m) {
        Some(o) => {
            if format == 0 {
                return of_compact(table, top, message, member, setting);
            }
            of_sliced(
                table,
                begin,
                shapes,
                top as usize,
                o,
                message,
                m,
                setting,
                bytes,
            )
        }
        None => Plan::Stop(49, 0),
    }
}

// Checks the table, the top and the message's length, reads the message, and plans the change of an accepted one.
pub fn plan(
    table: &[u8],
    top: u32,
    message: &[u8],
    member: u32,
    setting: bool,
    bytes: &[u8],
) -> Plan
    ensures { (setting ≡ false → length bytes.now ≤ 65536) → Ripe (changed table.now top member (content_of setting bytes.now) (rules table.now top message.now)) message.now bytes.now result }
{
    let mut shapes = [10u8; 256];
    let mut none = [0u8; 12];
    let w = reading::walk(
        table,
        top as usize,
        message,
        false,
        0,
        &mut shapes,
        &mut none,
    );
    match w {
        Walk::Done(first, format, n, optionals, slices, end) => {
            if message.len() < 6 {
                return Plan::Stop(4, 0);
            }
            let begin = table::types_at(table);
            accepted(
                table, begin, &shapes, top, first, format, message, member, setting, bytes,
            )
        }
        Walk::Stop(c, p) => Plan::Stop(c, p),
    }
}
