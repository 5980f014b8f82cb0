// The differences of all pairs: records by name, then parameter lists by their order.
// `begin` and `start` are where the type rows of the old and the new table begin, and the cells say which of their rows agree; the tables break no rule.
ghost use Rattle.std.specs.Prelude.{◌≡◌, map, ◌+◌, ◌≤◌, ◌<◌, length};
ghost use Rattle.encoding.specs.Table.{types, types_at, fine, faults};
ghost use Rattle.agreeing.specs.Agreeing.{Agreed};
ghost use Rattle.differences.specs.Compare.{pair_differences, paired, list_pairs, all_differences, differences};
ghost use Rattle.ordering.specs.Ordering.{row_number, item_pair, items};
ghost use Rattle.listing.specs.Listing.{Listed, is_list, next_of, follow_of, left_of, FewMembers};

// Lists the differences of item k: a record of the old table and its partner, or one of the new table. The array is used for tags.
fn item(
    old: &[u8],
    begin: usize,
    new: &[u8],
    start: usize,
    cells: &[usize; 514],
    tags: &mut [usize; 2048],
    k: usize,
    list: &mut [u8],
    n: usize,
) -> usize
    requires begin_value { (begin ≡ types_at old.now) × (start ≡ types_at new.now) }
    requires agreed { Agreed old.now new.now cells.now }
    requires k_bound { (k < 131072) × (length tags.old ≡ 2048) × (types new.now ≤ 256) }
    requires few_members { FewMembers old.now (item_pair old.now new.now k).0 × FewMembers new.now (item_pair old.now new.now k).1 }
    requires k_bound_2 { (k < types old.now + types new.now) × (n + length (pair_differences old.now new.now (item_pair old.now new.now k).0 (item_pair old.now new.now k).1) < 4294967296) }
    ensures listed { Listed (pair_differences old.now new.now (item_pair old.now new.now k).0 (item_pair old.now new.now k).1) n list.old list.new result }
    ensures tags_len { length tags.new ≡ 2048 }
{
    let c = table::types(old);
    if k < c {
        let p = ordering::names::partner(old, begin, k, new, start);
        return listing::owners::pair(old, begin, new, start, cells, tags, Some(k), p, list, n);
    }
    listing::owners::pair(
        old,
        begin,
        new,
        start,
        cells,
        tags,
        None,
        Some(k - c),
        list,
        n,
    )
}

// Lists the differences of the items in order.
fn records(
    old: &[u8],
    begin: usize,
    new: &[u8],
    start: usize,
    cells: &[usize; 514],
    tags: &mut [usize; 2048],
    ordered: &[usize],
    list: &mut [u8],
    n: usize,
) -> usize
    requires begin_value { (begin ≡ types_at old.now) × (start ≡ types_at new.now) }
    requires agreed { Agreed old.now new.now cells.now }
    requires value { (faults old.now ≡ fine) × (faults new.now ≡ fine) × (length tags.old ≡ 2048) }
    requires ordered_value { ordered.now ≡ items old.now new.now }
    requires ordered_bound { n + length (all_differences old.now new.now (map (item_pair old.now new.now) ordered.now)) < 4294967296 }
    ensures listed { Listed (all_differences old.now new.now (map (item_pair old.now new.now) ordered.now)) n list.old list.new result }
    ensures tags_len { length tags.new ≡ 2048 }
{
    let mut i = n;
    for k in ordered {
        i = item(old, begin, new, start, cells, tags, *k, list, i);
    }
    i
}

// Row t is a parameter list.
fn is_list(table: &[u8], begin: usize, t: usize) -> bool
    requires { begin ≡ types_at table.now }
    ensures { result ≡ is_list table.now t }
{
    table::kind(table, begin, t) == 15
}

// The first parameter list after row a, if there is one; none after no row.
fn following(table: &[u8], begin: usize, a: Option<usize>, end: usize) -> Option<usize>
    requires { (begin ≡ types_at table.now) × (end ≡ types table.now) × (end < 65536) × (faults table.now ≡ fine) × (row_number a ≤ 65536) }
    ensures { (row_number result ≡ follow_of (is_list table.now) (row_number a) end) × (row_number result ≤ 65536) × FewMembers table.now (row_number result) }
{
    listing::rows::following(a, end, |t| is_list(table, begin, t))
}

// The first parameter list of a table, if there is one.
fn first_list(table: &[u8], begin: usize, end: usize) -> Option<usize>
    requires { (begin ≡ types_at table.now) × (end ≡ types table.now) × (end < 65536) × (faults table.now ≡ fine) }
    ensures { (row_number result ≡ next_of (is_list table.now) 0 end) × (row_number result ≤ 65536) × FewMembers table.now (row_number result) }
{
    ordering::rows::first(0, end, |t| is_list(table, begin, t))
}

// Lists the differences of the parameter lists from rows m and k on, of which one may be missing.
fn walk(
    old: &[u8],
    begin: usize,
    new: &[u8],
    start: usize,
    cells: &[usize; 514],
    tags: &mut [usize; 2048],
    m: Option<usize>,
    k: Option<usize>,
    list: &mut [u8],
    n: usize,
) -> usize
    requires begin_value { (begin ≡ types_at old.now) × (start ≡ types_at new.now) }
    requires agreed { Agreed old.now new.now cells.now }
    requires value { (faults old.now ≡ fine) × (faults new.now ≡ fine) × (length tags.old ≡ 2048) }
    requires m_bound { (row_number m ≤ 65536) × (row_number k ≤ 65536) × FewMembers old.now (row_number m) × FewMembers new.now (row_number k) }
    requires bound { n + length (all_differences old.now new.now (paired (left_of (is_list old.now) (row_number m) (types old.now)) (left_of (is_list new.now) (row_number k) (types new.now)))) < 4294967296 }
    ensures listed { Listed (all_differences old.now new.now (paired (left_of (is_list old.now) (row_number m) (types old.now)) (left_of (is_list new.now) (row_number k) (types new.now)))) n list.old list.new result }
    ensures tags_len { length tags.new ≡ 2048 }
{
    let end = table::types(old);
    let stop = table::types(new);
    let mut a = m;
    let mut b = k;
    let mut i = n;
    // Stays: how far a step goes depends on the rows that it finds, so no `for` counts the steps.
    // Stays: a loop in common with the required members' would take a closure that writes the list and the tags, and its contract would be longer than this loop.
    while listing::rows::is_any(a, b) {
        i = listing::owners::pair(old, begin, new, start, cells, tags, a, b, list, i);
        a = following(old, begin, a, end);
        b = following(new, start, b, stop);
    }
    i
}

// Lists the differences of the parameter lists.
fn lists(
    old: &[u8],
    begin: usize,
    new: &[u8],
    start: usize,
    cells: &[usize; 514],
    tags: &mut [usize; 2048],
    list: &mut [u8],
    n: usize,
) -> usize
    requires begin_value { (begin ≡ types_at old.now) × (start ≡ types_at new.now) }
    requires agreed { Agreed old.now new.now cells.now }
    requires value { (faults old.now ≡ fine) × (faults new.now ≡ fine) × (length tags.old ≡ 2048) }
    requires bound { n + length (all_differences old.now new.now (list_pairs old.now new.now)) < 4294967296 }
    ensures { Listed (all_differences old.now new.now (list_pairs old.now new.now)) n list.old list.new result }
{
    let m = first_list(old, begin, table::types(old));
    let k = first_list(new, start, table::types(new));
    walk(old, begin, new, start, cells, tags, m, k, list, n)
}

// Lists the differences of two tables.
pub fn all(
    old: &[u8],
    begin: usize,
    new: &[u8],
    start: usize,
    cells: &[usize; 514],
    list: &mut [u8],
) -> usize
    requires begin_value { (begin ≡ types_at old.now) × (start ≡ types_at new.now) }
    requires agreed { Agreed old.now new.now cells.now }
    requires value { (faults old.now ≡ fine) × (faults new.now ≡ fine) }
    ensures listed { Listed (differences old.now new.now) 0 list.old list.new result }
    ensures upper_bound { result < 4294967296 }
{
    let mut slots = [0usize; 512];
    let mut tags = [0usize; 2048];
    let s = ordering::names::order(old, begin, new, start, &mut slots);
    let i = records(
        old,
        begin,
        new,
        start,
        cells,
        &mut tags,
        &slots[s..],
        list,
        0,
    );
    lists(old, begin, new, start, cells, &mut tags, list, i)
}
