// The shape of each row, computed from the shapes of the rows below it, so that no type tree is walked.
// A shape is a number that says two things of the row's type: the form of an optional and, if every string of n bytes is a value, that n, the width.
// Stays: a shape is one byte and no enum: memory is fixed, a call has 256 of them on its stack, and form and width are read off by a comparison and a subtraction.
#![tactic(auto)]

ghost use Rattle.std.specs.Prelude.{◌≡◌, ◌≤◌, ◌<◌, replicate};
ghost use Rattle.encoding.specs.Result.{pick};
ghost use Rattle.encoding.specs.Types.{fixed, fixeds, struct, seq, dict};
ghost use Rattle.encoding.specs.Table.{types_at, field, member_tys, own_rows, tys, part_ty, type_rows};
ghost use Rattle.shapes.specs.Shapes.{width_of, plain_shape, shape_of, shape_at, shapes_of, Shaped, form_code, width_code, shape_in, form_in, width_in, width_below, is_text_in, is_bool_in, is_enum_in};

// The number of the optional's form that a shape says.
#[tactic(auto, using(crate::proofs::Filling::code_own, crate::proofs::Filling::code_same, crate::proofs::Filling::code_number, crate::proofs::Filling::code_eight, crate::proofs::Filling::code_struct))]
fn form_code(x: usize) -> usize
    ensures { result ≡ form_code x }
{
    if x < 11 {
        return if x == 7 { 8 } else { x };
    }
    if x < 18 {
        return (x - 10) / 2;
    }
    if x == 18 { 3 } else { 9 }
}

// The width that a shape says, or 0 if it has none.
#[tactic(auto, using(crate::proofs::Filling::width_none, crate::proofs::Filling::width_number, crate::proofs::Filling::width_struct))]
fn width_code(x: usize) -> usize
    ensures { (result ≡ width_code x) × (result ≤ x) }
{
    if x < 11 {
        return 0;
    }
    if x < 19 { x - 10 } else { x - 18 }
}

// The shape of row t; a row past the array is broken.
pub fn shape(shapes: &[u8; 256], t: usize) -> usize
    ensures { (result ≡ shape_in shapes.now t) × (result < 256) }
{
    if t < 256 {
        return wire::wide(shapes[t]);
    }
    10
}

// The number of the form of row t's type.
pub fn form(shapes: &[u8; 256], t: usize) -> usize
    ensures { result ≡ form_in shapes.now t }
{
    form_code(shape(shapes, t))
}

// The width of row t: every string of so many bytes is a value of it; or 0.
pub fn width(shapes: &[u8; 256], t: usize) -> usize
    ensures { (result ≡ width_in shapes.now t) × (result < 256) }
{
    width_code(shape(shapes, t))
}

// Row t is a string.
// Stays: `is_bool` and `is_enum` differ from it by the number alone, but each is one comparison, and its name says more than the number as a parameter would.
pub fn is_text(shapes: &[u8; 256], t: usize) -> bool
    ensures { result ≡ is_text_in shapes.now t }
{
    shape(shapes, t) == 8
}

// Row t is a bool.
pub fn is_bool(shapes: &[u8; 256], t: usize) -> bool
    ensures { result ≡ is_bool_in shapes.now t }
{
    shape(shapes, t) == 0
}

// Row t is an enum.
pub fn is_enum(shapes: &[u8; 256], t: usize) -> bool
    ensures { result ≡ is_enum_in shapes.now t }
{
    shape(shapes, t) == 4
}

// Row i is below t and fixed_size.
pub fn is_fixed(table: &[u8], begin: usize, shapes: &[u8; 256], t: usize, i: usize) -> bool
    requires begin_value { begin ≡ types_at table.now }
    requires t_bound { t ≤ type_rows table.now }
    requires shaped { Shaped table.now shapes.now t }
    ensures { result ≡ fixed (part_ty table.now t i) }
{
    if t <= i {
        return false;
    }
    let x = shapes[i];
    if 10 < x {
        return true;
    }
    if x == 0 {
        return true;
    }
    if x == 9 {
        return table::kind(table, begin, i) == 9;
    }
    false
}

// Every member of row t is fixed_size.
fn are_fixed(table: &[u8], begin: usize, shapes: &[u8; 256], t: usize) -> bool
    requires begin_value { begin ≡ types_at table.now }
    requires t_bound { t ≤ type_rows table.now }
    requires shaped { Shaped table.now shapes.now t }
    ensures { result ≡ fixeds (member_tys table.now (tys table.now t) (own_rows table.now t)) }
{
    let count = table::members(table);
    let first = table::members_at(table, begin);
    let start = table::field(table, begin, t, 0);
    let end = start + table::field(table, begin, t, 1);
    for m in start..end {
        if count <= m {
            return false;
        }
        let of = table::member_row_from(table, first, m).of;
        if !is_fixed(table, begin, shapes, t, of) {
            return false;
        }
    }
    true
}

// The width of row i if it is below t, else 0.
pub fn width_below(shapes: &[u8; 256], t: usize, i: usize) -> usize
    ensures { (result ≡ width_below shapes.now t i) × (result < 256) }
{
    if i < t {
        return width(shapes, i);
    }
    0
}

// The width of struct row t if it has one of at most 237, else 0: shapes fit a byte.
fn struct_width(table: &[u8], begin: usize, shapes: &[u8; 256], t: usize) -> usize
    requires begin_value { begin ≡ types_at table.now }
    requires t_bound { t ≤ type_rows table.now }
    requires shaped { Shaped table.now shapes.now t }
    ensures { (result ≡ width_of (struct (member_tys table.now (tys table.now t) (own_rows table.now t)))) × (result ≤ 237) }
{
    let count = table::members(table);
    let first = table::members_at(table, begin);
    let row = table::type_row(table, begin, t);
    let end = row.a + row.b;
    let mut sum: usize = 0;
    for m in row.a..end {
        if count <= m {
            return 0;
        }
        let w = width_below(shapes, t, table::member_row_from(table, first, m).of);
        if w == 0 {
            return 0;
        }
        sum += w;
    }
    if sum <= 237 { sum } else { 0 }
}

// The shape of struct row t.
fn struct_shape(table: &[u8], begin: usize, shapes: &[u8; 256], t: usize) -> u8
    requires begin_value { begin ≡ types_at table.now }
    requires t_bound { t ≤ type_rows table.now }
    requires shaped { Shaped table.now shapes.now t }
    ensures { result ≡ shape_of (struct (member_tys table.now (tys table.now t) (own_rows table.now t))) }
{
    let w = struct_width(table, begin, shapes, t);
    if w != 0 {
        return (18 + w) as u8;
    }
    counted(are_fixed(table, begin, shapes, t))
}

// The shape of a row without parts, by its kind.
#[tactic(auto, using(crate::proofs::Filling::plain_none), unfolding(crate::specs::Shapes::plain_shape))]
pub fn plain(k: usize) -> u8
    ensures { result ≡ plain_shape k }
{
    match k {
        0 => 0,
        1 => 11,
        2 => 12,
        3 => 14,
        4 => 18,
        5 => 14,
        6 => 18,
        7 => 8,
        8 => 4,
        _ => 10,
    }
}

// The shape of a container, or of a struct without a width: 9 (an optional after a VSize) if its parts are fixed_size, else 10 (after an FSize).
pub fn counted(fixed: bool) -> u8
    ensures { result ≡ pick fixed 9 10 }
{
    if fixed { 9 } else { 10 }
}

// The shape of sequence row t.
fn seq_shape(table: &[u8], begin: usize, shapes: &[u8; 256], t: usize) -> u8
    requires begin_value { begin ≡ types_at table.now }
    requires t_bound { t ≤ type_rows table.now }
    requires shaped { Shaped table.now shapes.now t }
    ensures { result ≡ shape_of (seq (part_ty table.now t (field table.now t 0))) }
{
    let i = table::field(table, begin, t, 0);
    if t <= i {
        return 10;
    }
    if table::kind(table, begin, i) <= 1 {
        return 7;
    }
    counted(is_fixed(table, begin, shapes, t, i))
}

// The shape of dictionary row t.
fn dict_shape(table: &[u8], begin: usize, shapes: &[u8; 256], t: usize) -> u8
    requires begin_value { begin ≡ types_at table.now }
    requires t_bound { t ≤ type_rows table.now }
    requires shaped { Shaped table.now shapes.now t }
    ensures { result ≡ shape_of (dict (part_ty table.now t (field table.now t 0)) (part_ty table.now t (field table.now t 1))) }
{
    if !is_fixed(table, begin, shapes, t, table::field(table, begin, t, 0)) {
        return 10;
    }
    counted(is_fixed(table, begin, shapes, t, table::field(table, begin, t, 1)))
}

// The shape of row t; the array has those of the rows below it.
fn row_shape(table: &[u8], begin: usize, shapes: &[u8; 256], t: usize) -> u8
    requires begin_value { begin ≡ types_at table.now }
    requires t_bound { t < type_rows table.now }
    requires shaped { Shaped table.now shapes.now t }
    ensures { result ≡ shape_at table.now t }
{
    let k = table::kind(table, begin, t);
    if k == 9 {
        return struct_shape(table, begin, shapes, t);
    }
    if k == 10 {
        return seq_shape(table, begin, shapes, t);
    }
    if k == 11 {
        return dict_shape(table, begin, shapes, t);
    }
    plain(k)
}

// Sets the shape of each row. The caller has made the array of 10s, the shape of a broken row: rows that the table does not have stay.
pub fn fill(table: &[u8], begin: usize, shapes: &mut [u8; 256])
    requires begin_value { begin ≡ types_at table.now }
    requires shapes_value { shapes.old ≡ replicate 256 10 }
    ensures { shapes.new ≡ shapes_of table.now }
{
    for t in 0..table::rows(table) {
        let x = row_shape(table, begin, shapes, t);
        shapes[t] = x;
    }
}
