// Values that are read without a call of the cycle: a sequence of values that may be any bytes, and a dictionary of strings and such values, strings and dictionary with sizes of one byte.
// Each function answers a number, so that the answer stays in a register; it answers 0 if the value is another one or refused, and the value is then read anew.
ghost use Rattle.std.specs.Prelude.{◌≡◌, Ok, Bool, true, ◌+◌, ◌-◌, ◌≤◌, ◌<◌, length};
ghost use Rattle.encoding.specs.Result.{times};
ghost use Rattle.encoding.specs.Table.{types_at, row_at, type_rows, ty_of};
ghost use Rattle.encoding.specs.Value.{value};
ghost use Rattle.encoding.specs.Old.{type_as};
ghost use Rattle.wire.specs.Steps.{step_of};
ghost use Rattle.shapes.specs.Shapes.{shapes_of};
ghost use Rattle.value.specs.Parts.{text_entry, text_dict};

// How many bytes a string and w bytes of any content take.
fn text_pair(s: &[u8], w: usize) -> usize
    ensures { 0 < result → Ok result ≡ step_of (text_entry w s.now) }
{
    let k = text::short_text(s);
    if k == 0 {
        return 0;
    }
    if s.len() - k < w {
        return 0;
    }
    k + w
}

// One more than the bytes that n such pairs take.
fn text_pairs(s: &[u8], n: usize, w: usize) -> usize
    ensures { 0 < result → Ok (result - 1) ≡ step_of (times n (text_entry w) s.now) }
{
    let mut at: usize = 0;
    for _ in 0..n {
        let k = text_pair(&s[at..], w);
        if k == 0 {
            return 0;
        }
        at += k;
    }
    1 + at
}

// How many bytes a size and as many such pairs take.
fn text_dict(s: &[u8], w: usize) -> usize
    ensures { 0 < result → Ok result ≡ step_of (text_dict w s.now) }
{
    if s.len() < 1 {
        return 0;
    }
    let n = wire::byte_at(s, 0);
    if n == 255 {
        return 0;
    }
    text_pairs(&s[1..], n, w)
}

// Row t is one of the `rows` that have a type tree, and lies inside the table. Here and below, `begin` is where the type rows begin.
fn is_there(table: &[u8], begin: usize, rows: usize, t: usize) -> bool
    requires begin_value { begin ≡ types_at table.now }
    requires rows_bound { rows ≤ 256 }
    ensures { result ≡ true → (t < rows) × (row_at table.now (t + 1) ≤ length table.now) }
{
    if rows <= t {
        return false;
    }
    table::row_at(table, begin, t + 1) <= table.len()
}

// How many bytes a value of sequence row t takes. Here and below, the table has so many rows with a type tree.
pub fn sequence(
    table: &[u8],
    begin: usize,
    shapes: &[u8; 256],
    rows: usize,
    t: usize,
    s: &[u8],
) -> usize
    requires begin_value { begin ≡ types_at table.now }
    requires shapes_value { shapes.now ≡ shapes_of table.now }
    requires rows_value { (rows ≡ type_rows table.now) × (rows ≤ 256) }
    ensures { 0 < result → (old : Bool) → Ok result ≡ step_of (value (type_as old (ty_of table.now t)) s.now) }
{
    if !is_there(table, begin, rows, t) {
        return 0;
    }
    let row = table::type_row_in(table, begin, t);
    if row.kind != 10 {
        return 0;
    }
    let w = shapes::width_below(shapes, t, row.a);
    if w == 0 {
        return 0;
    }
    let Ok(size) = wire::read_size(s) else {
        return 0;
    };
    if size.number * w <= s.len() - size.bytes {
        return size.bytes + size.number * w;
    }
    0
}

// How many bytes a value of dictionary row t takes. It is called from several places so that it is not inlined.
pub fn dictionary(
    table: &[u8],
    begin: usize,
    shapes: &[u8; 256],
    rows: usize,
    t: usize,
    s: &[u8],
) -> usize
    requires begin_value { begin ≡ types_at table.now }
    requires shapes_value { shapes.now ≡ shapes_of table.now }
    requires rows_value { (rows ≡ type_rows table.now) × (rows ≤ 256) }
    ensures { 0 < result → (old : Bool) → Ok result ≡ step_of (value (type_as old (ty_of table.now t)) s.now) }
{
    if !is_there(table, begin, rows, t) {
        return 0;
    }
    let row = table::type_row_in(table, begin, t);
    if row.kind != 11 {
        return 0;
    }
    if !crate::is_text_below(shapes, t, row.a) {
        return 0;
    }
    let w = shapes::width_below(shapes, t, row.b);
    if w == 0 {
        return 0;
    }
    text_dict(s, w)
}
