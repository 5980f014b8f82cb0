// What a value of a table's type takes, on any bytes and any table. plain.rt has the values without parts, quick.rt those that are read without the cycle.
//
// The readers of values, structs, sequences and dictionaries are one cycle of calls. Each has a bound: a type is one of the rows
// below it, any other row is broken. The bound falls with each part. `part` is small enough to be inlined into the loops that call it;
// `value`, called from several places, is not.
// Each is given `begin`, where the type rows begin, and `old`: whether the value is in encoding 1.0, which has other enums and proxies.
#![tactic(auto)]

mod plain;
pub mod quick;

ghost use Rattle.std.specs.Prelude.{◌≡◌, ◌<◌, Ok};
ghost use Rattle.encoding.specs.Result.{times};
ghost use Rattle.encoding.specs.Types.{struct, seq, dict};
ghost use Rattle.encoding.specs.Table.{types_at, field, tys, part_ty, ty_of, member_tys, own_rows};
ghost use Rattle.encoding.specs.Value.{value, exact};
ghost use Rattle.encoding.specs.Old.{type_as};
ghost use Rattle.wire.specs.Steps.{step_of};
ghost use Rattle.shapes.specs.Shapes.{shapes_of, width_below};
ghost use Rattle.value.specs.Parts.{entry, is_text_below};

use wire::Refusal;

// The same answer, taken apart and put together again, so that its numbers stay in registers: a copy of the whole waits for its last write.
fn same(answer: Result<usize, Refusal>) -> Result<usize, Refusal>
    ensures { result ≡ answer }
{
    match answer {
        Ok(taken) => Ok(taken),
        Err(Refusal { number, place }) => Err(Refusal { number, place }),
    }
}

// A value of row e, where e is below t. `&s[0..]` in place of `s`: where and how long are passed in registers.
#[cycle(values)]
fn value(
    table: &[u8],
    begin: usize,
    shapes: &[u8; 256],
    t: usize,
    e: usize,
    s: &[u8],
    old: bool,
) -> Result<usize, Refusal>
    requires begin_value { begin ≡ types_at table.now }
    requires shapes_value { shapes.now ≡ shapes_of table.now }
    ensures { result ≡ step_of (value (type_as old (part_ty table.now t e)) s.now) }
{
    if t <= e {
        return Err(Refusal {
            number: 4,
            place: 0,
        });
    }
    let kind = table::kind(table, begin, e);
    match kind {
        0 => plain::bool(s),
        1 => plain::skip(s, 1),
        2 => plain::skip(s, 2),
        3 => plain::skip(s, 4),
        4 => plain::skip(s, 8),
        5 => plain::skip(s, 4),
        6 => plain::skip(s, 8),
        7 => same(text::read_text(&s[0..])),
        8 => plain::enumerator(table, begin, e, s, old),
        9 => struct_value(table, begin, shapes, e, s, old),
        10 => sequence(table, begin, shapes, e, s, old),
        11 => dictionary(table, begin, shapes, e, s, old),
        12 => same(proxy::proxy(old, &s[0..])),
        _ => Err(Refusal {
            number: 4,
            place: 0,
        }),
    }
}

// The same; a value that may be any bytes is taken at once. The answer is rebuilt, so that it stays in registers.
#[cycle(values)]
fn part(
    table: &[u8],
    begin: usize,
    shapes: &[u8; 256],
    t: usize,
    e: usize,
    s: &[u8],
    old: bool,
) -> Result<usize, Refusal>
    requires begin_value { begin ≡ types_at table.now }
    requires shapes_value { shapes.now ≡ shapes_of table.now }
    ensures { result ≡ step_of (value (type_as old (part_ty table.now t e)) s.now) }
{
    if e < t {
        let w = shapes::width(shapes, e);
        if 0 < w {
            if w <= s.len() {
                return Ok(w);
            }
        }
    }
    same(value(table, begin, shapes, t, e, s, old))
}

// The members of struct row t, one after another.
#[cycle(values)]
fn struct_value(
    table: &[u8],
    begin: usize,
    shapes: &[u8; 256],
    t: usize,
    s: &[u8],
    old: bool,
) -> Result<usize, Refusal>
    requires begin_value { begin ≡ types_at table.now }
    requires shapes_value { shapes.now ≡ shapes_of table.now }
    ensures { result ≡ step_of (value (type_as old (struct (member_tys table.now (tys table.now t) (own_rows table.now t)))) s.now) }
{
    let all = table::members(table);
    let first = table::members_at(table, begin);
    let owner = table::type_row(table, begin, t);
    let mut at: usize = 0;
    for m in owner.a..owner.a + owner.b {
        if all <= m {
            return Err(Refusal {
                number: 4,
                place: at,
            });
        }
        let row = table::member_row_from(table, first, m);
        at = wire::later(at, part(table, begin, shapes, t, row.of, &s[at..], old))?;
    }
    Ok(at)
}

// Row k is a string, and below t.
fn is_text_below(shapes: &[u8; 256], t: usize, k: usize) -> bool
    ensures { result ≡ is_text_below shapes.now t k }
{
    if k < t {
        return shapes::is_text(shapes, k);
    }
    false
}

// The sequence of row t: a size, and as many elements; elements that may be any bytes are taken at once.
#[cycle(values)]
fn sequence(
    table: &[u8],
    begin: usize,
    shapes: &[u8; 256],
    t: usize,
    s: &[u8],
    old: bool,
) -> Result<usize, Refusal>
    requires begin_value { begin ≡ types_at table.now }
    requires shapes_value { shapes.now ≡ shapes_of table.now }
    ensures { result ≡ step_of (value (type_as old (seq (part_ty table.now t (field table.now t 0)))) s.now) }
{
    let size = wire::read_size(s)?;
    let e = table::field_a(table, begin, t);
    let w = shapes::width_below(shapes, t, e);
    if 0 < w {
        if size.number * w <= s.len() - size.bytes {
            return Ok(size.bytes + size.number * w);
        }
    }
    wire::later(
        size.bytes,
        elements(
            table,
            begin,
            shapes,
            t,
            e,
            size.number,
            &s[size.bytes..],
            old,
        ),
    )
}

// n values of row e, where e is below t.
#[cycle(values)]
fn elements(
    table: &[u8],
    begin: usize,
    shapes: &[u8; 256],
    t: usize,
    e: usize,
    n: usize,
    s: &[u8],
    old: bool,
) -> Result<usize, Refusal>
    requires begin_value { begin ≡ types_at table.now }
    requires shapes_value { shapes.now ≡ shapes_of table.now }
    ensures { result ≡ step_of (times n (value (type_as old (part_ty table.now t e))) s.now) }
{
    if e < t {
        if shapes::is_text(shapes, e) {
            return plain::texts(s, n);
        }
        if shapes::is_bool(shapes, e) {
            return plain::bools(s, n);
        }
        if shapes::is_enum(shapes, e) {
            if !table::with_lists(table, begin) {
                let row = table::type_row(table, begin, e);
                return plain::enums(table::greatest(row), s, n, old);
            }
        }
    }
    let mut at: usize = 0;
    for _ in 0..n {
        at = wire::later(at, part(table, begin, shapes, t, e, &s[at..], old))?;
    }
    Ok(at)
}

// The dictionary of row t: a size, and as many pairs.
#[cycle(values)]
fn dictionary(
    table: &[u8],
    begin: usize,
    shapes: &[u8; 256],
    t: usize,
    s: &[u8],
    old: bool,
) -> Result<usize, Refusal>
    requires begin_value { begin ≡ types_at table.now }
    requires shapes_value { shapes.now ≡ shapes_of table.now }
    ensures { result ≡ step_of (value (type_as old (dict (part_ty table.now t (field table.now t 0)) (part_ty table.now t (field table.now t 1)))) s.now) }
{
    let size = wire::read_size(s)?;
    wire::later(
        size.bytes,
        pairs(table, begin, shapes, t, size.number, &s[size.bytes..], old),
    )
}

// n pairs of dictionary row t.
#[cycle(values)]
fn pairs(
    table: &[u8],
    begin: usize,
    shapes: &[u8; 256],
    t: usize,
    n: usize,
    s: &[u8],
    old: bool,
) -> Result<usize, Refusal>
    requires begin_value { begin ≡ types_at table.now }
    requires shapes_value { shapes.now ≡ shapes_of table.now }
    ensures { result ≡ step_of (times n (entry (type_as old (part_ty table.now t (field table.now t 0))) (type_as old (part_ty table.now t (field table.now t 1)))) s.now) }
{
    let key = table::field_a(table, begin, t);
    let val = table::field_b(table, begin, t);
    let text = is_text_below(shapes, t, key);
    let w = shapes::width_below(shapes, t, val);
    let mut at: usize = 0;
    for _ in 0..n {
        at = wire::later(
            at,
            pair(table, begin, shapes, t, key, val, text, w, &s[at..], old),
        )?;
    }
    Ok(at)
}

// A value of row k, where k is below t; a string, if `text` says so, is read without a call.
#[cycle(values)]
fn key(
    table: &[u8],
    begin: usize,
    shapes: &[u8; 256],
    t: usize,
    k: usize,
    text: bool,
    s: &[u8],
    old: bool,
) -> Result<usize, Refusal>
    requires begin_value { begin ≡ types_at table.now }
    requires shapes_value { shapes.now ≡ shapes_of table.now }
    requires text_value { text ≡ is_text_below shapes.now t k }
    ensures { result ≡ step_of (value (type_as old (part_ty table.now t k)) s.now) }
{
    if text {
        return text::read_text(s);
    }
    part(table, begin, shapes, t, k, s, old)
}

// A key of row k, then a value of row v, both below t; `text` and `w` come from their shapes, looked up once for all pairs.
#[cycle(values)]
fn pair(
    table: &[u8],
    begin: usize,
    shapes: &[u8; 256],
    t: usize,
    k: usize,
    v: usize,
    text: bool,
    w: usize,
    s: &[u8],
    old: bool,
) -> Result<usize, Refusal>
    requires begin_value { begin ≡ types_at table.now }
    requires shapes_value { shapes.now ≡ shapes_of table.now }
    requires text_value { text ≡ is_text_below shapes.now t k }
    requires w_value { w ≡ width_below shapes.now t v }
    ensures { result ≡ step_of (entry (type_as old (part_ty table.now t k)) (type_as old (part_ty table.now t v)) s.now) }
{
    let n = key(table, begin, shapes, t, k, text, s, old)?;
    if 0 < w {
        if w <= s.len() - n {
            return Ok(n + w);
        }
    }
    wire::later(n, value(table, begin, shapes, t, v, &s[n..], old))
}

// A value of row t of the table; a row that has no tree is refused by 4 here. The row's shape says what is tried first: no sequence of values of a width has 10.
pub fn read_value(
    table: &[u8],
    begin: usize,
    shapes: &[u8; 256],
    t: usize,
    s: &[u8],
    old: bool,
) -> Result<usize, Refusal>
    requires begin_value { begin ≡ types_at table.now }
    requires shapes_value { shapes.now ≡ shapes_of table.now }
    ensures { result ≡ step_of (value (type_as old (ty_of table.now t)) s.now) }
{
    let rows = table::rows(table);
    if shapes::shape(shapes, t) == 10 {
        let m = quick::dictionary(table, begin, shapes, rows, t, s);
        if 0 < m {
            return Ok(m);
        }
    } else {
        let n = quick::sequence(table, begin, shapes, rows, t, s);
        if 0 < n {
            return Ok(n);
        }
    }
    same(value(table, begin, shapes, rows, t, s, old))
}

// The same; one that may be any bytes, a string, a bool and an enum of 1.1 without a list are taken without a call.
// The last lines are those of `read_value`: a call of it would pass the answer through memory.
pub fn read_member(
    table: &[u8],
    begin: usize,
    shapes: &[u8; 256],
    t: usize,
    s: &[u8],
    old: bool,
) -> Result<usize, Refusal>
    requires begin_value { begin ≡ types_at table.now }
    requires shapes_value { shapes.now ≡ shapes_of table.now }
    ensures { result ≡ step_of (value (type_as old (ty_of table.now t)) s.now) }
{
    let w = shapes::width(shapes, t);
    if 0 < w {
        if w <= s.len() {
            return Ok(w);
        }
    }
    if shapes::is_text(shapes, t) {
        return text::read_text(s);
    }
    if shapes::is_bool(shapes, t) {
        return plain::bool(s);
    }
    if shapes::is_enum(shapes, t) {
        if !table::with_lists(table, begin) {
            let row = table::type_row(table, begin, t);
            return plain::upto(table::greatest(row), s, old);
        }
    }
    let rows = table::rows(table);
    if shapes::shape(shapes, t) == 10 {
        let m = quick::dictionary(table, begin, shapes, rows, t, s);
        if 0 < m {
            return Ok(m);
        }
    } else {
        let n = quick::sequence(table, begin, shapes, rows, t, s);
        if 0 < n {
            return Ok(n);
        }
    }
    same(value(table, begin, shapes, rows, t, s, old))
}

// How many bytes a value of row t takes, if no call of the cycle is needed to read it; 0 if it is another one or refused.
// It is called at one place and inlined there: so most members are judged without a call.
pub fn quick_member(
    table: &[u8],
    begin: usize,
    shapes: &[u8; 256],
    t: usize,
    s: &[u8],
    old: bool,
) -> usize
    requires begin_value { begin ≡ types_at table.now }
    requires shapes_value { shapes.now ≡ shapes_of table.now }
    ensures { 0 < result → Ok result ≡ step_of (value (type_as old (ty_of table.now t)) s.now) }
{
    let w = shapes::width(shapes, t);
    if 0 < w {
        if w <= s.len() {
            return w;
        }
        return 0;
    }
    if shapes::is_text(shapes, t) {
        return text::short_text(s);
    }
    if shapes::is_bool(shapes, t) {
        return plain::bool(s).unwrap_or(0);
    }
    if shapes::is_enum(shapes, t) {
        if !table::with_lists(table, begin) {
            let row = table::type_row(table, begin, t);
            return plain::upto(table::greatest(row), s, old).unwrap_or(0);
        }
        return 0;
    }
    let rows = table::rows(table);
    if shapes::shape(shapes, t) == 10 {
        return quick::dictionary(table, begin, shapes, rows, t, s);
    }
    quick::sequence(table, begin, shapes, rows, t, s)
}

// The bytes are exactly one value of row t.
pub fn exact_value(
    table: &[u8],
    begin: usize,
    shapes: &[u8; 256],
    t: usize,
    s: &[u8],
    old: bool,
) -> bool
    requires begin_value { begin ≡ types_at table.now }
    requires shapes_value { shapes.now ≡ shapes_of table.now }
    ensures { result ≡ exact (type_as old (ty_of table.now t)) s.now }
{
    let w = shapes::width(shapes, t);
    if 0 < w {
        if w <= s.len() {
            return w == s.len();
        }
    }
    match value(table, begin, shapes, table::rows(table), t, s, old) {
        Ok(n) => n == s.len(),
        Err(_) => false,
    }
}
