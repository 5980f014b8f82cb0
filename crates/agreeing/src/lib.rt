// Which rows of two tables agree in type: a lent array with a cell for each row of both, which is the index of the first row of the old table that agrees with it. So a row of the old table and one of the new agree exactly if their cells are equal.
// A cell is set from the cells of the rows below, and no type tree is walked. The old table's cells come first, the new one's begin at place 257.
// The weight of a struct is the sum of its members' cells: most structs that differ have different weights and are not compared further.
// A row's index is its number + 1; index 0 is a broken type, also for a row that the table does not have.
#![tactic(auto)]

ghost use Rattle.std.specs.Prelude.{◌≡◌, map, ◌+◌, ◌≤◌, ◌<◌, length, get_or, eqb};
ghost use Rattle.encoding.specs.Result.{same_bytes};
ghost use Rattle.encoding.specs.Table.{types_at, members_at, entries_at, kind, field, list_entry, allowed, entries_of, range, member_ty, member_tys, own_rows, tys, part_ty, type_rows, trees, ty_of};
ghost use Rattle.differences.specs.Compare.{same_allowed, members_of, same_ty, same_tys};
ghost use Rattle.agreeing.specs.Agreeing.{indexed, sort_at, below, is_listed, Alike, IsFirst, Firsts, Agreed, Ranked, weigh, Weighed};

// What sort of type index x has: its row's kind, or 13 if it is broken. Here and below, `begin` is where the type rows begin.
fn sort_at(table: &[u8], begin: usize, x: usize) -> usize
    requires { begin ≡ types_at table.now }
    ensures { result ≡ sort_at table.now x }
{
    if x == 0 {
        return 13;
    }
    let t = x - 1;
    if table::rows(table) <= t {
        return 13;
    }
    let k = table::kind(table, begin, t);
    if 12 < k {
        return 13;
    }
    k
}

// The index of row i as a part of row t: 0, a broken type, unless i is below t.
fn index_below(t: usize, i: usize) -> usize
    ensures { (result ≡ below t i) × (result ≤ t) }
{
    if t <= i {
        return 0;
    }
    i + 1
}

// The index of row i.
fn index(table: &[u8], i: usize) -> usize
    ensures { (indexed table.now result ≡ ty_of table.now i) × (result ≤ type_rows table.now) }
{
    index_below(table::rows(table), i)
}

// The cells of index x of the old table and of index y of a table whose cells begin at place `base` are equal.
fn is_same(cells: &[usize; 514], base: usize, x: usize, y: usize) -> bool
    requires { (x < 257) × (y < 257) × (base ≤ 257) }
    ensures { result ≡ eqb (get_or cells.now x 0) (get_or cells.now (base + y) 0) }
{
    cells[x] == cells[base + y]
}

// Field i of row t of the old table and field i of row u are rows that agree, each as a part of its row. Here and below, the array has the cells of the indexes up to t and, from place `base` on, up to u.
fn part(
    old: &[u8],
    begin: usize,
    table: &[u8],
    start: usize,
    cells: &[usize; 514],
    base: usize,
    t: usize,
    u: usize,
    i: usize,
) -> bool
    requires begin_value { (begin ≡ types_at old.now) × (start ≡ types_at table.now) }
    requires t_bound { (t < type_rows old.now) × (u < type_rows table.now) × (base ≤ 257) }
    requires alike { Alike old.now table.now cells.now base (t + 1) (u + 1) }
    ensures { result ≡ same_ty (part_ty old.now t (field old.now t i)) (part_ty table.now u (field table.now u i)) }
{
    let x = index_below(t, table::field(old, begin, t, i));
    let y = index_below(u, table::field(table, start, u, i));
    is_same(cells, base, x, y)
}

// The index of member row m's type as a part of row t; `first` is where the member rows begin.
fn member_below(table: &[u8], first: usize, t: usize, m: usize) -> usize
    requires first_value { (first ≡ members_at table.now) × (first < 1048576) × (m < 131072) }
    requires t_bound { t ≤ type_rows table.now }
    ensures { (indexed table.now result ≡ member_ty table.now (tys table.now t) m) × (result ≤ t) }
{
    if table::members(table) <= m {
        return 0;
    }
    index_below(t, table::member_row_from(table, first, m).of)
}

// The types of member rows m and k agree, each as a part of row t or u; `first` and `from` are where the member rows begin.
fn types(
    old: &[u8],
    first: usize,
    t: usize,
    m: usize,
    table: &[u8],
    from: usize,
    u: usize,
    k: usize,
    cells: &[usize; 514],
    base: usize,
) -> bool
    requires first_value { (first ≡ members_at old.now) × (first < 1048576) × (m < 131072) }
    requires from_value { (from ≡ members_at table.now) × (from < 1048576) × (k < 131072) }
    requires t_bound { (t < type_rows old.now) × (u < type_rows table.now) × (base ≤ 257) }
    requires alike { Alike old.now table.now cells.now base (t + 1) (u + 1) }
    ensures { result ≡ same_ty (member_ty old.now (tys old.now t) m) (member_ty table.now (tys table.now u) k) }
{
    let x = member_below(old, first, t, m);
    let y = member_below(table, from, u, k);
    is_same(cells, base, x, y)
}

// The types of the n member rows from row m on and of those from row k on agree, each as a part of row t or u; `first` and `from` are where the member rows begin.
fn run(
    old: &[u8],
    first: usize,
    t: usize,
    m: usize,
    table: &[u8],
    from: usize,
    u: usize,
    k: usize,
    cells: &[usize; 514],
    base: usize,
    n: usize,
) -> bool
    requires first_value { (first ≡ members_at old.now) × (first < 1048576) × (m < 65536) }
    requires from_value { (from ≡ members_at table.now) × (from < 1048576) × (k < 65536) × (n < 65536) }
    requires t_bound { (t < type_rows old.now) × (u < type_rows table.now) × (base ≤ 257) }
    requires alike { Alike old.now table.now cells.now base (t + 1) (u + 1) }
    ensures { result ≡ same_tys (member_tys old.now (tys old.now t) (range m n)) (member_tys table.now (tys table.now u) (range k n)) }
{
    for i in 0..n {
        if !types(old, first, t, m + i, table, from, u, k + i, cells, base) {
            return false;
        }
    }
    true
}

// The structs of rows t and u have equally many members, which agree in order.
fn structs(
    old: &[u8],
    begin: usize,
    table: &[u8],
    start: usize,
    cells: &[usize; 514],
    base: usize,
    t: usize,
    u: usize,
) -> bool
    requires begin_value { (begin ≡ types_at old.now) × (start ≡ types_at table.now) }
    requires t_bound { (t < type_rows old.now) × (u < type_rows table.now) × (base ≤ 257) }
    requires alike { Alike old.now table.now cells.now base (t + 1) (u + 1) }
    ensures { result ≡ same_tys (member_tys old.now (tys old.now t) (own_rows old.now t)) (member_tys table.now (tys table.now u) (own_rows table.now u)) }
{
    let n = table::field_b(old, begin, t);
    if n != table::field_b(table, start, u) {
        return false;
    }
    let m = table::field_a(old, begin, t);
    let k = table::field_a(table, start, u);
    run(
        old,
        table::members_at(old, begin),
        t,
        m,
        table,
        table::members_at(table, start),
        u,
        k,
        cells,
        base,
        n,
    )
}

// Enum row t has a list that leaves out a number up to its greatest.
fn is_listed(table: &[u8], begin: usize, t: usize) -> bool
    requires { begin ≡ types_at table.now }
    ensures { result ≡ is_listed table.now t }
{
    if table::with_lists(table, begin) {
        let row = table::type_row(table, begin, t);
        return row.d != table::greatest(row) + 1;
    }
    false
}

// Entries i and j are equal; `first` and `from` are where the entries begin.
fn same_entry(old: &[u8], first: usize, i: usize, new: &[u8], from: usize, j: usize) -> bool
    requires first_value { (first ≡ entries_at old.now) × (first < 4194304) × (i < 131072) }
    requires from_value { (from ≡ entries_at new.now) × (from < 4194304) × (j < 131072) }
    ensures { result ≡ eqb (list_entry old.now i) (list_entry new.now j) }
{
    table::allowed::list_entry(old, first, i) == table::allowed::list_entry(new, from, j)
}

// The n entries from entry i on and those from entry j on are equal; `first` and `from` are where the entries begin.
fn entries(old: &[u8], first: usize, i: usize, new: &[u8], from: usize, j: usize, n: usize) -> bool
    requires first_value { (first ≡ entries_at old.now) × (first < 4194304) × (i < 65536) }
    requires from_value { (from ≡ entries_at new.now) × (from < 4194304) × (j < 65536) × (n < 65536) }
    ensures { result ≡ same_bytes (map (list_entry old.now) (range i n)) (map (list_entry new.now) (range j n)) }
{
    for k in 0..n {
        if !same_entry(old, first, i + k, new, from, j + k) {
            return false;
        }
    }
    true
}

// The lists of enum rows t and u are equal.
fn lists(old: &[u8], begin: usize, new: &[u8], start: usize, t: usize, u: usize) -> bool
    requires { (begin ≡ types_at old.now) × (start ≡ types_at new.now) }
    ensures { result ≡ same_bytes (entries_of old.now t) (entries_of new.now u) }
{
    let n = table::field(old, begin, t, 3);
    if n != table::field(new, start, u, 3) {
        return false;
    }
    let i = table::field(old, begin, t, 2);
    let j = table::field(new, start, u, 2);
    entries(
        old,
        table::entries_at(old, begin),
        i,
        new,
        table::entries_at(new, start),
        j,
        n,
    )
}

// Enum rows t and u allow the same numbers.
fn enums(old: &[u8], begin: usize, new: &[u8], start: usize, t: usize, u: usize) -> bool
    requires { (begin ≡ types_at old.now) × (start ≡ types_at new.now) }
    ensures { result ≡ same_allowed (allowed old.now t) (allowed new.now u) }
{
    if is_listed(old, begin, t) {
        if is_listed(new, start, u) {
            return lists(old, begin, new, start, t, u);
        }
        return false;
    }
    if is_listed(new, start, u) {
        return false;
    }
    table::greatest(table::type_row(old, begin, t))
        == table::greatest(table::type_row(new, start, u))
}

// The sum of the cells of the types of the n member rows from row m on, as parts of row u; `from` is where the member rows begin.
fn sum(
    old: &[u8],
    table: &[u8],
    from: usize,
    cells: &[usize; 514],
    base: usize,
    u: usize,
    m: usize,
    n: usize,
) -> usize
    requires from_value { (from ≡ members_at table.now) × (from < 1048576) × (m < 65536) × (n < 65536) }
    requires u_bound { (u < type_rows table.now) × (base ≤ 257) }
    requires ranked { Ranked old.now table.now cells.now base (u + 1) }
    ensures { result ≡ weigh old.now (member_tys table.now (tys table.now u) (range m n)) }
{
    let mut w = 0;
    for i in 0..n {
        w += cells[base + member_below(table, from, u, m + i)];
    }
    w
}

// The weight of index y: 0 if it is no struct.
fn weight(
    old: &[u8],
    table: &[u8],
    start: usize,
    cells: &[usize; 514],
    base: usize,
    y: usize,
) -> usize
    requires start_value { (start ≡ types_at table.now) × (base ≤ 257) }
    requires ranked { Ranked old.now table.now cells.now base y }
    ensures { result ≡ weigh old.now (members_of (indexed table.now y)) }
{
    if sort_at(table, start, y) != 9 {
        return 0;
    }
    let u = y - 1;
    let from = table::members_at(table, start);
    let m = table::field_a(table, start, u);
    let n = table::field_b(table, start, u);
    sum(old, table, from, cells, base, u, m, n)
}

// Row t of the old table, of weight v, and row u, of kind k and weight w, agree.
fn rows(
    old: &[u8],
    begin: usize,
    table: &[u8],
    start: usize,
    cells: &[usize; 514],
    base: usize,
    v: usize,
    w: usize,
    k: usize,
    t: usize,
    u: usize,
) -> bool
    requires begin_value { (begin ≡ types_at old.now) × (start ≡ types_at table.now) }
    requires t_bound { (t < type_rows old.now) × (u < type_rows table.now) × (base ≤ 257) }
    requires v_value { (v ≡ weigh old.now (members_of (ty_of old.now t))) × (w ≡ weigh old.now (members_of (ty_of table.now u))) }
    requires k_value { (k ≡ kind table.now u) × (k ≤ 12) }
    requires alike { Alike old.now table.now cells.now base (t + 1) (u + 1) }
    ensures { result ≡ same_ty (ty_of old.now t) (ty_of table.now u) }
{
    if v != w {
        return false;
    }
    if table::kind(old, begin, t) != k {
        return false;
    }
    if k == 8 {
        return enums(old, begin, table, start, t, u);
    }
    if k == 9 {
        return structs(old, begin, table, start, cells, base, t, u);
    }
    if k == 10 {
        return part(old, begin, table, start, cells, base, t, u, 0);
    }
    if k == 11 {
        if part(old, begin, table, start, cells, base, t, u, 0) {
            return part(old, begin, table, start, cells, base, t, u, 1);
        }
        return false;
    }
    true
}

// Index x of the old table and index y of a table, of sort k and weight w, agree.
fn agrees(
    old: &[u8],
    begin: usize,
    table: &[u8],
    start: usize,
    cells: &[usize; 514],
    base: usize,
    weights: &[usize; 257],
    w: usize,
    k: usize,
    x: usize,
    y: usize,
) -> bool
    requires begin_value { (begin ≡ types_at old.now) × (start ≡ types_at table.now) }
    requires x_nonzero { (0 < x) × (x ≤ type_rows old.now) × (base ≤ 257) }
    requires alike { Alike old.now table.now cells.now base x y }
    requires weighed { Weighed old.now weights.now (x + 1) × (w ≡ weigh old.now (members_of (indexed table.now y))) }
    requires k_value { (k ≡ sort_at table.now y) × (k ≡ 13 → ⊥) }
    ensures { result ≡ same_ty (indexed old.now x) (indexed table.now y) }
{
    let v = weights[x];
    rows(old, begin, table, start, cells, base, v, w, k, x - 1, y - 1)
}

// The first index of the old table below `end` that agrees with index y of a table, which has weight w, or `end` if there is none. The arrays have the cells and weights of the indexes below `end` and, from place `base` on, the cells of those below y.
fn first(
    old: &[u8],
    begin: usize,
    table: &[u8],
    start: usize,
    cells: &[usize; 514],
    base: usize,
    weights: &[usize; 257],
    w: usize,
    end: usize,
    y: usize,
) -> usize
    requires begin_value { (begin ≡ types_at old.now) × (start ≡ types_at table.now) }
    requires end_bound { (end ≤ type_rows old.now + 1) × (base ≤ 257) }
    requires alike { Alike old.now table.now cells.now base end y }
    requires weighed { Weighed old.now weights.now end × (w ≡ weigh old.now (members_of (indexed table.now y))) }
    ensures { IsFirst old.now end (indexed table.now y) result }
{
    let k = sort_at(table, start, y);
    if k == 13 {
        return 0;
    }
    for x in 1..end {
        if agrees(old, begin, table, start, cells, base, weights, w, k, x, y) {
            return x;
        }
    }
    end
}

// Sets the cells and weights of the old table: an index that agrees with none before it is its own cell.
fn fill_old(old: &[u8], begin: usize, cells: &mut [usize; 514], weights: &mut [usize; 257])
    requires begin_value { begin ≡ types_at old.now }
    requires cells_len { (length cells.old ≡ 514) × (length weights.old ≡ 257) }
    ensures firsts { Firsts old.now cells.new (type_rows old.now + 1) }
    ensures weighed { Weighed old.now weights.new (type_rows old.now + 1) }
{
    let end = table::rows(old) + 1;
    for x in 0..end {
        let w = weight(old, old, begin, cells, 0, x);
        let c = first(old, begin, old, begin, cells, 0, weights, w, x, x);
        cells[x] = c;
        weights[x] = w;
    }
}

// Sets the cells of the new table; the arrays have the cells and weights of the old one.
fn fill_new(
    old: &[u8],
    begin: usize,
    new: &[u8],
    start: usize,
    cells: &mut [usize; 514],
    weights: &[usize; 257],
)
    requires begin_value { (begin ≡ types_at old.now) × (start ≡ types_at new.now) }
    requires firsts { Firsts old.now cells.old (type_rows old.now + 1) }
    requires weighed { Weighed old.now weights.now (type_rows old.now + 1) }
    ensures { Agreed old.now new.now cells.new }
{
    let end = table::rows(old) + 1;
    let stop = table::rows(new) + 1;
    for y in 0..stop {
        let w = weight(old, new, start, cells, 257, y);
        let c = first(old, begin, new, start, cells, 257, weights, w, end, y);
        cells[257 + y] = c;
    }
}

// Sets the cells of all rows of the two tables.
pub fn fill(old: &[u8], begin: usize, new: &[u8], start: usize, cells: &mut [usize; 514])
    requires begin_value { (begin ≡ types_at old.now) × (start ≡ types_at new.now) }
    requires cells_len { length cells.old ≡ 514 }
    ensures { Agreed old.now new.now cells.new }
{
    let mut weights = [0usize; 257];
    fill_old(old, begin, cells, &mut weights);
    fill_new(old, begin, new, start, cells, &weights);
}

// Member row m of the old table and member row n of the new one agree in type.
// Wrong and ruled out: rows of equal kind that agree whatever their parts; enums by their greatest enumerator alone.
pub fn members(
    old: &[u8],
    begin: usize,
    new: &[u8],
    start: usize,
    cells: &[usize; 514],
    m: usize,
    n: usize,
) -> bool
    requires begin_value { (begin ≡ types_at old.now) × (start ≡ types_at new.now) }
    requires agreed { Agreed old.now new.now cells.now }
    ensures { result ≡ same_ty (member_ty old.now (trees old.now) m) (member_ty new.now (trees new.now) n) }
{
    let x = index(old, table::type_of_member(old, begin, m));
    let y = index(new, table::type_of_member(new, start, n));
    is_same(cells, 257, x, y)
}
