// One pass over a table of version 1 that judges each row and computes its shape. A yes says that the table breaks no rule and that the array holds its shapes.
// A no says nothing: `rules` then decides, and `shapes` fills the array. Usual tables get a yes; a table whose tags fall, or that has lists of enumerators, does not.
// The functions for a row return its shape, or None if it may break a rule.
#![tactic(auto)]

ghost use Rattle.std.specs.Prelude.{◌≡◌, true, false, ◌&&◌, ◌+◌, ◌≤◌, ◌<◌, length, replicate, Ok, IfSome};
ghost use Rattle.encoding.specs.Result.{pick};
ghost use Rattle.encoding.specs.Table.{with_lists, types, members, types_at, row_at, members_at, member_at, names_at, range, type_rows, fine, faults};
ghost use Rattle.table.specs.Rows.{IsTypeRow};
ghost use Rattle.rules.specs.Checks.{finding_of, broken_of, alike_from, row_rules, rows_pass, owner_pass, owners_pass, OwnersThere};
ghost use Rattle.shapes.specs.Shapes.{narrow, struct_shape, shape_at, shapes_of, Shaped};
ghost use Rattle.onepass.specs.Passing.{RowPassed, UnnamedPassed, AlonePassed, StructPassed, PlainRows};

use table::TypeRow;

// Enum row t.
fn enum_row(table: &[u8], t: usize, row: TypeRow) -> Option<u8>
    requires table_value { with_lists table.now ≡ false }
    requires t_bound { t < type_rows table.now }
    requires type_row { IsTypeRow table.now t row }
    requires kind_value { (row.kind ≡ 8) × (row.spare ≡ 0) }
    ensures { IfSome result (AlonePassed table.now t row) }
{
    if rules::is_set_from(row, 2) {
        return None;
    }
    if 2147483648 <= table::greatest(row) {
        return None;
    }
    Some(4)
}

// Sequence row t. The array has the shapes of the rows below it, here and below.
fn seq_row(table: &[u8], begin: usize, shapes: &[u8; 256], t: usize, row: TypeRow) -> Option<u8>
    requires begin_value { begin ≡ types_at table.now }
    requires t_in_bounds { row_at table.now t ≤ length table.now }
    requires t_bound { t < type_rows table.now }
    requires shaped { Shaped table.now shapes.now t }
    requires type_row { IsTypeRow table.now t row }
    requires kind_value { (row.kind ≡ 10) × (row.spare ≡ 0) }
    ensures { IfSome result (AlonePassed table.now t row) }
{
    if rules::is_set_from(row, 1) {
        return None;
    }
    if rules::no_part(table, begin, t, row.a) {
        return None;
    }
    if table::kind_in(table, begin, row.a) <= 1 {
        return Some(7);
    }
    Some(shapes::counted(shapes::is_fixed(table, begin, shapes, t, row.a)))
}

// Dictionary row t.
fn dict_row(table: &[u8], begin: usize, shapes: &[u8; 256], t: usize, row: TypeRow) -> Option<u8>
    requires begin_value { begin ≡ types_at table.now }
    requires t_in_bounds { row_at table.now t ≤ length table.now }
    requires t_bound { t < type_rows table.now }
    requires shaped { Shaped table.now shapes.now t }
    requires type_row { IsTypeRow table.now t row }
    requires kind_value { (row.kind ≡ 11) × (row.spare ≡ 0) }
    ensures { IfSome result (AlonePassed table.now t row) }
{
    if rules::is_set_from(row, 2) {
        return None;
    }
    if rules::no_part(table, begin, t, row.a) {
        return None;
    }
    if rules::no_part(table, begin, t, row.b) {
        return None;
    }
    if !shapes::is_fixed(table, begin, shapes, t, row.a) {
        return Some(10);
    }
    Some(shapes::counted(shapes::is_fixed(table, begin, shapes, t, row.b)))
}

// Row t, if its kind is below 13 and not 9: it takes no member rows and has no name.
fn alone_row(table: &[u8], begin: usize, shapes: &[u8; 256], t: usize, row: TypeRow) -> Option<u8>
    requires begin_value { begin ≡ types_at table.now }
    requires table_value { with_lists table.now ≡ false }
    requires t_in_bounds { row_at table.now t ≤ length table.now }
    requires t_bound { t < type_rows table.now }
    requires shaped { Shaped table.now shapes.now t }
    requires type_row { IsTypeRow table.now t row }
    requires spare_value { row.spare ≡ 0 }
    ensures { IfSome result (AlonePassed table.now t row) }
{
    if row.kind == 10 {
        return seq_row(table, begin, shapes, t, row);
    }
    if row.kind == 8 {
        return enum_row(table, t, row);
    }
    if row.kind == 11 {
        return dict_row(table, begin, shapes, t, row);
    }
    if row.kind != 12 {
        return None;
    }
    if rules::is_set_from(row, 0) {
        return None;
    }
    Some(10)
}

// The width of a struct, or 0 if it has none; `wide`: each member has a width, and `sum` is their sum.
fn struct_width(wide: bool, sum: usize) -> usize
    ensures { (result ≡ narrow (pick wide sum 0)) × (result ≤ 237) }
{
    if !wide {
        return 0;
    }
    if 237 < sum {
        return 0;
    }
    sum
}

// The shape of a struct of width w, 0 if it has none; `fixed`: each member is fixed_size.
fn struct_shape(w: usize, fixed: bool) -> u8
    requires { w ≤ 237 }
    ensures { result ≡ struct_shape w fixed }
{
    if w != 0 {
        return (18 + w) as u8;
    }
    shapes::counted(fixed)
}

// The members of struct row t, and its shape. The table has `all` member rows, from `first` on, here and below.
// A required member with tag 0, read as one long, is the number of its type.
fn struct_members(
    table: &[u8],
    begin: usize,
    shapes: &[u8; 256],
    first: usize,
    all: usize,
    t: usize,
    row: TypeRow,
) -> Option<u8>
    requires begin_value { begin ≡ types_at table.now }
    requires t_in_bounds { row_at table.now t ≤ length table.now }
    requires t_bound { t < type_rows table.now }
    requires shaped { Shaped table.now shapes.now t }
    requires first_value { (first ≡ members_at table.now) × (all ≡ members table.now) }
    requires all_in_bounds { member_at table.now all ≤ length table.now }
    requires type_row { IsTypeRow table.now t row }
    requires kind_value { (row.kind ≡ 9) × (row.a + row.b ≤ all) }
    ensures { IfSome result (StructPassed table.now t) }
{
    let end = row.a + row.b;
    // Stays: a flag and a sum, no Option: each member changes both in one line, where an Option would be taken apart and made again.
    let mut sum: usize = 0;
    let mut wide = true;
    let mut fixed = true;
    for m in row.a..end {
        let p = table::member_at(table, first, m);
        let x = wire::long_in(table, p);
        if rules::no_part(table, begin, t, x) {
            return None;
        }
        let w = shapes::width_below(shapes, t, x);
        wide &= w != 0;
        fixed &= shapes::is_fixed(table, begin, shapes, t, x);
        sum += w;
    }
    Some(struct_shape(struct_width(wide, sum), fixed))
}

// Struct row t; the rows before it take `prior` member rows.
fn struct_row(
    table: &[u8],
    begin: usize,
    shapes: &[u8; 256],
    first: usize,
    all: usize,
    t: usize,
    row: TypeRow,
    prior: usize,
) -> Option<u8>
    requires begin_value { begin ≡ types_at table.now }
    requires t_in_bounds { row_at table.now t ≤ length table.now }
    requires t_bound { t < type_rows table.now }
    requires shaped { Shaped table.now shapes.now t }
    requires first_value { (first ≡ members_at table.now) × (all ≡ members table.now) }
    requires all_in_bounds { member_at table.now all ≤ length table.now }
    requires type_row { IsTypeRow table.now t row }
    requires kind_value { (row.kind ≡ 9) × (row.spare ≡ 0) }
    ensures { IfSome result (UnnamedPassed table.now t row prior) }
{
    if rules::is_set_from(row, 2) {
        return None;
    }
    if row.a != prior {
        return None;
    }
    if row.b == 0 {
        return None;
    }
    if all < row.a + row.b {
        return None;
    }
    struct_members(table, begin, shapes, first, all, t, row)
}

// The rules of row t: true if its kind is 13 to 15 and it breaks none. The names begin at `labels`; no row before `from` is a record, here and below.
fn owner_rules(
    table: &[u8],
    begin: usize,
    labels: usize,
    t: usize,
    row: TypeRow,
    prior: usize,
    from: usize,
) -> bool
    requires begin_value { begin ≡ types_at table.now }
    requires labels_value { (labels ≡ names_at table.now) × (labels < 2097152) }
    requires t_in_bounds { row_at table.now t ≤ length table.now }
    requires type_row { IsTypeRow table.now t row }
    requires spare_value { row.spare ≡ 0 }
    ensures value { result ≡ true → Ok tt ≡ broken_of (row_rules table.now t row prior (alike_from table.now from t)) }
    ensures le_kind { result ≡ true → (13 ≤ row.kind) × (row.kind ≤ 15) }
{
    if table::is_record(row.kind) {
        return rules::record_row(table, begin, labels, t, row, prior, from).is_ok();
    }
    if row.kind != 15 {
        return false;
    }
    if rules::is_set_from(row, 2) {
        return false;
    }
    row.a == prior
}

// How many of the n member rows from row `from` on are required ones with tag 0 whose types lie below row o, up to the first other one. Read as one long, such a row is the number of its type.
fn plain_members(table: &[u8], begin: usize, first: usize, o: usize, from: usize, n: usize) -> usize
    requires begin_value { begin ≡ types_at table.now }
    requires o_in_bounds { row_at table.now (o + 1) ≤ length table.now }
    requires first_value { first ≡ members_at table.now }
    requires n_in_bounds { member_at table.now (from + n) ≤ length table.now }
    ensures { (result ≤ n) × PlainRows table.now o from result }
{
    for k in 0..n {
        let p = table::member_at(table, first, from + k);
        let x = wire::long_in(table, p);
        if rules::no_part(table, begin, o, x) {
            return k;
        }
    }
    n
}

// The member rows of row o, of kind 13 to 15, are usual, and their types lie below. Those before the first optional one are judged by a loop of their own, which is shorter.
fn members(table: &[u8], begin: usize, first: usize, all: usize, o: usize, own: TypeRow) -> bool
    requires begin_value { begin ≡ types_at table.now }
    requires o_in_bounds { row_at table.now (o + 1) ≤ length table.now }
    requires o_bound { o < type_rows table.now }
    requires first_value { (first ≡ members_at table.now) × (all ≡ members table.now) }
    requires all_in_bounds { member_at table.now all ≤ length table.now }
    requires type_row { IsTypeRow table.now o own }
    requires le_kind { (13 ≤ own.kind) × (own.kind ≤ 15) }
    ensures { result ≡ true → Ok tt ≡ finding_of (owner_pass table.now o) }
{
    let end = own.a + own.b;
    if all < end {
        return false;
    }
    let k = plain_members(table, begin, first, o, own.a, own.b);
    let mut above = k.min(1);
    for m in own.a + k..end {
        let p = table::member_at(table, first, m);
        let x = wire::long_in(table, p);
        if !rules::is_usual(x, true, above) {
            return false;
        }
        if rules::no_part(table, begin, o, x % 65536) {
            return false;
        }
        above = rules::raised(above, x / 4294967296);
    }
    true
}

// Row t of any kind from 8 on.
fn row_shape(
    table: &[u8],
    begin: usize,
    shapes: &[u8; 256],
    labels: usize,
    first: usize,
    all: usize,
    t: usize,
    row: TypeRow,
    prior: usize,
    from: usize,
) -> Option<u8>
    requires begin_value { begin ≡ types_at table.now }
    requires table_value { with_lists table.now ≡ false }
    requires labels_value { (labels ≡ names_at table.now) × (labels < 2097152) }
    requires t_in_bounds { row_at table.now (t + 1) ≤ length table.now }
    requires t_bound { t < type_rows table.now }
    requires shaped { Shaped table.now shapes.now t }
    requires first_value { (first ≡ members_at table.now) × (all ≡ members table.now) }
    requires all_in_bounds { member_at table.now all ≤ length table.now }
    requires type_row { IsTypeRow table.now t row }
    ensures { IfSome result (RowPassed table.now t row prior (alike_from table.now from t)) }
{
    if row.spare != 0 {
        return None;
    }
    if row.kind == 9 {
        return struct_row(table, begin, shapes, first, all, t, row, prior);
    }
    if row.kind < 13 {
        return alone_row(table, begin, shapes, t, row);
    }
    if !owner_rules(table, begin, labels, t, row, prior, from) {
        return None;
    }
    if !members(table, begin, first, all, t, row) {
        return None;
    }
    Some(10)
}

// The pass over the n type rows and the `all` member rows, in a table without lists.
fn rows(table: &[u8], begin: usize, n: usize, all: usize, shapes: &mut [u8; 256]) -> bool
    requires begin_value { begin ≡ types_at table.now }
    requires table_value { with_lists table.now ≡ false }
    requires n_value { (n ≡ types table.now) × (all ≡ members table.now) }
    requires n_value_2 { n ≡ type_rows table.now }
    requires all_in_bounds { member_at table.now all ≤ length table.now }
    requires shapes_value { shapes.old ≡ replicate 256 10 }
    ensures value { result ≡ true → Ok tt ≡ finding_of (rows_pass table.now) }
    ensures value_2 { result ≡ true → OwnersThere table.now → Ok tt ≡ finding_of (owners_pass table.now (range 0 (types table.now))) }
    ensures shapes_after { result ≡ true → shapes.new ≡ shapes_of table.now }
{
    let labels = table::names_at(table, begin);
    let first = table::row_at(table, begin, n);
    let mut prior = 0;
    let mut from = 0;
    for t in 0..n {
        if rules::is_basic(table, begin, t) {
            let y = shapes::plain(table::kind_in(table, begin, t));
            shapes[t] = y;
            from = rules::past(from, t, true);
            continue;
        }
        let row = table::type_row_in(table, begin, t);
        let Some(x) = row_shape(
            table, begin, shapes, labels, first, all, t, row, prior, from,
        ) else {
            return false;
        };
        shapes[t] = x;
        prior += rules::share(row);
        from = rules::past(from, t, !table::is_record(row.kind));
    }
    prior == all
}

// Whether the table is known to break no rule; then the array holds its shapes, else it is as it was lent.
// Wrong and ruled out: a yes for a table whose header, rows or member sum break a rule; the shape of another kind.
pub fn fill(table: &[u8], begin: usize, shapes: &mut [u8; 256]) -> bool
    requires begin_value { begin ≡ types_at table.now }
    requires shapes_value { shapes.old ≡ replicate 256 10 }
    ensures table_value { result ≡ true → faults table.now ≡ fine }
    ensures shapes_after { result ≡ true → shapes.new ≡ shapes_of table.now }
    ensures shapes_after_2 { result ≡ false → shapes.new ≡ replicate 256 10 }
{
    if table::with_lists(table, begin) {
        return false;
    }
    if rules::header(table, begin).is_err() {
        return false;
    }
    let n = table::types(table);
    if rows(table, begin, n, table::members(table), shapes) {
        return true;
    }
    *shapes = [10; 256];
    false
}
