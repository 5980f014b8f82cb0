// Whether a new table extends an old one and the tops match. `begin` and `start` are where the type rows of the old and the new table begin, and the cells say which of their rows agree.
#![tactic(auto)]

ghost use Rattle.std.specs.Prelude.{◌≡◌, ◌+◌, ◌≤◌, ◌<◌};
ghost use Rattle.encoding.specs.Table.{types, types_at, members_at, field, fine, faults, range, required_members, optional_members};
ghost use Rattle.agreeing.specs.Agreeing.{Agreed};
ghost use Rattle.differences.specs.Compare.{records, same_record, required_match, optionals_match, owners_match, bases_match, matched_by, all_matched, tops_match, extending};
ghost use Rattle.ordering.specs.Ordering.{row_number};
ghost use Rattle.listing.specs.Listing.{FewMembers};
ghost use Rattle.matching.specs.Matching.{optional_matches, every_row, row_matched};

// Member row m of the old table is required, or an optional member of row u of the new table has its tag and agrees; `first` is where the old member rows begin.
fn optional(
    old: &[u8],
    begin: usize,
    new: &[u8],
    start: usize,
    cells: &[usize; 514],
    u: usize,
    first: usize,
    m: usize,
) -> bool
    requires begin_value { (begin ≡ types_at old.now) × (start ≡ types_at new.now) }
    requires agreed { Agreed old.now new.now cells.now }
    requires first_value { (first ≡ members_at old.now) × (first < 1048576) × (m < 131072) }
    ensures { result ≡ optional_matches old.now new.now u m }
{
    let row = table::member_row_from(old, first, m);
    if row.mark == 0 {
        return true;
    }
    let k = ordering::tags::tag_row(new, start, u, row.tag);
    listing::members::agree(old, begin, new, start, cells, Some(m), k)
}

// Each of the n member rows from row m on is required, or has a match.
fn every(
    old: &[u8],
    begin: usize,
    new: &[u8],
    start: usize,
    cells: &[usize; 514],
    u: usize,
    m: usize,
    n: usize,
) -> bool
    requires begin_value { (begin ≡ types_at old.now) × (start ≡ types_at new.now) }
    requires agreed { Agreed old.now new.now cells.now }
    requires m_bound { (m < 65536) × (n < 65536) }
    ensures { result ≡ every_row (optional_matches old.now new.now u) (range m n) }
{
    let first = table::members_at(old, begin);
    for i in 0..n {
        if !optional(old, begin, new, start, cells, u, first, m + i) {
            return false;
        }
    }
    true
}

// Each optional member of row t has one of row u with its tag and an agreeing type.
fn optionals(
    old: &[u8],
    begin: usize,
    new: &[u8],
    start: usize,
    cells: &[usize; 514],
    t: usize,
    u: usize,
) -> bool
    requires begin_value { (begin ≡ types_at old.now) × (start ≡ types_at new.now) }
    requires agreed { Agreed old.now new.now cells.now }
    ensures { result ≡ optionals_match (optional_members old.now t) (optional_members new.now u) }
{
    let m = table::field_a(old, begin, t);
    let n = table::field_b(old, begin, t);
    every(old, begin, new, start, cells, u, m, n)
}

// The required members of rows t and u have no difference. The list holds no entry: they are only counted.
fn required(
    old: &[u8],
    begin: usize,
    new: &[u8],
    start: usize,
    cells: &[usize; 514],
    t: usize,
    u: usize,
) -> bool
    requires begin_value { (begin ≡ types_at old.now) × (start ≡ types_at new.now) }
    requires agreed { Agreed old.now new.now cells.now }
    requires t_bound { (t < 65536) × (u < 65536) × (field old.now t 1 ≤ 1024) × (field new.now u 1 ≤ 1024) }
    ensures { result ≡ required_match (required_members old.now t) (required_members new.now u) }
{
    let mut none = [0u8; 1];
    listing::members::required(old, begin, new, start, cells, t, u, &mut none, 0) == 0
}

// Owners t and u match.
fn owners(
    old: &[u8],
    begin: usize,
    new: &[u8],
    start: usize,
    cells: &[usize; 514],
    t: usize,
    u: usize,
) -> bool
    requires begin_value { (begin ≡ types_at old.now) × (start ≡ types_at new.now) }
    requires agreed { Agreed old.now new.now cells.now }
    requires t_bound { (t < 65536) × (u < 65536) × (field old.now t 1 ≤ 1024) × (field new.now u 1 ≤ 1024) }
    ensures { result ≡ owners_match old.now new.now t u }
{
    if required(old, begin, new, start, cells, t, u) {
        return optionals(old, begin, new, start, cells, t, u);
    }
    false
}

// Rows t and u have one kind and name.
fn same_record(old: &[u8], begin: usize, new: &[u8], start: usize, t: usize, u: usize) -> bool
    requires { (begin ≡ types_at old.now) × (start ≡ types_at new.now) }
    ensures { result ≡ same_record old.now new.now t u }
{
    if table::kind(old, begin, t) == table::kind(new, start, u) {
        return ordering::names::same_names(old, begin, t, new, start, u);
    }
    false
}

// Base rows + 1, or 0 for none, match.
fn bases(old: &[u8], begin: usize, new: &[u8], start: usize, b: usize, c: usize) -> bool
    requires { (begin ≡ types_at old.now) × (start ≡ types_at new.now) }
    ensures { result ≡ bases_match old.now new.now b c }
{
    if b == 0 {
        return c == 0;
    }
    if c == 0 {
        return false;
    }
    same_record(old, begin, new, start, b - 1, c - 1)
}

// Record t of the old table matches row p of the new one, if there is one.
fn matched_by(
    old: &[u8],
    begin: usize,
    new: &[u8],
    start: usize,
    cells: &[usize; 514],
    t: usize,
    p: Option<usize>,
) -> bool
    requires begin_value { (begin ≡ types_at old.now) × (start ≡ types_at new.now) }
    requires agreed { Agreed old.now new.now cells.now }
    requires t_bound { (t < 65536) × (row_number p ≤ 65536) × (field old.now t 1 ≤ 1024) × FewMembers new.now (row_number p) }
    ensures { result ≡ matched_by old.now new.now t (row_number p) }
{
    match p {
        Some(u) => {
            let b = table::chain::base(old, begin, t);
            let c = table::chain::base(new, start, u);
            if owners(old, begin, new, start, cells, t, u) {
                return bases(old, begin, new, start, b, c);
            }
            false
        }
        None => false,
    }
}

// Row t of the old table is no record, or matches its partner.
fn matched(
    old: &[u8],
    begin: usize,
    new: &[u8],
    start: usize,
    cells: &[usize; 514],
    t: usize,
) -> bool
    requires begin_value { (begin ≡ types_at old.now) × (start ≡ types_at new.now) }
    requires agreed { Agreed old.now new.now cells.now }
    requires value { (faults old.now ≡ fine) × (faults new.now ≡ fine) × (t < types old.now) }
    ensures { result ≡ row_matched old.now new.now t }
{
    if table::is_record(table::kind(old, begin, t)) {
        let p = ordering::names::partner(old, begin, t, new, start);
        return matched_by(old, begin, new, start, cells, t, p);
    }
    true
}

// Every record of the old table has a match.
fn all_matched(old: &[u8], begin: usize, new: &[u8], start: usize, cells: &[usize; 514]) -> bool
    requires begin_value { (begin ≡ types_at old.now) × (start ≡ types_at new.now) }
    requires agreed { Agreed old.now new.now cells.now }
    requires value { (faults old.now ≡ fine) × (faults new.now ≡ fine) }
    ensures { result ≡ all_matched old.now new.now (records old.now) }
{
    let n = table::types(old);
    for t in 0..n {
        if !matched(old, begin, new, start, cells, t) {
            return false;
        }
    }
    true
}

// The tops match, as records or as two parameter lists.
fn tops(
    old: &[u8],
    begin: usize,
    new: &[u8],
    start: usize,
    cells: &[usize; 514],
    t: usize,
    u: usize,
) -> bool
    requires begin_value { (begin ≡ types_at old.now) × (start ≡ types_at new.now) }
    requires agreed { Agreed old.now new.now cells.now }
    requires value { (faults old.now ≡ fine) × (faults new.now ≡ fine) × (t < types old.now) × (u < types new.now) }
    ensures { result ≡ tops_match old.now new.now t u }
{
    let k = table::kind(old, begin, t);
    if table::is_record(k) {
        return same_record(old, begin, new, start, t, u);
    }
    if k == 15 {
        if table::kind(new, start, u) == 15 {
            return owners(old, begin, new, start, cells, t, u);
        }
    }
    false
}

// The new table extends the old one, and the tops match.
// Wrong and ruled out: yes though a base differs; yes where only the records match.
pub fn extending(
    old: &[u8],
    begin: usize,
    new: &[u8],
    start: usize,
    cells: &[usize; 514],
    t: usize,
    u: usize,
) -> bool
    requires begin_value { (begin ≡ types_at old.now) × (start ≡ types_at new.now) }
    requires agreed { Agreed old.now new.now cells.now }
    requires value { (faults old.now ≡ fine) × (faults new.now ≡ fine) × (t < types old.now) × (u < types new.now) }
    ensures { result ≡ extending old.now new.now t u }
{
    if all_matched(old, begin, new, start, cells) {
        return tops(old, begin, new, start, cells, t, u);
    }
    false
}
