// The differences of members: required ones by position, optional ones by tag.
// Here and below, `begin` and `start` are where the type rows of the old and the new table begin, and the cells say which of their rows agree.
ghost use Rattle.std.specs.Prelude.{◌≡◌, ◌+◌, ◌≤◌, ◌<◌, length};
ghost use Rattle.encoding.specs.Table.{types_at, members_at, field, optional_members};
ghost use Rattle.agreeing.specs.Agreeing.{Agreed};
ghost use Rattle.differences.specs.Compare.{paired, member_differences, required_differences, optional_differences};
ghost use Rattle.ordering.specs.Ordering.{row_number};
ghost use Rattle.listing.specs.Listing.{Listed, what_number, agree_rows, member_difference, is_required, next_of, follow_of, left_of, row_differences, tag_difference};

use crate::entries::{What, number_of};
use crate::{entries, rows};
use ordering::rows::number;

// Two member rows agree, or there is neither.
pub fn agree(
    old: &[u8],
    begin: usize,
    new: &[u8],
    start: usize,
    cells: &[usize; 514],
    m: Option<usize>,
    k: Option<usize>,
) -> bool
    requires begin_value { (begin ≡ types_at old.now) × (start ≡ types_at new.now) }
    requires agreed { Agreed old.now new.now cells.now }
    ensures { result ≡ agree_rows old.now new.now (row_number m) (row_number k) }
{
    match m {
        Some(i) => match k {
            Some(j) => agreeing::members(old, begin, new, start, cells, i, j),
            None => false,
        },
        None => k.is_none(),
    }
}

// Lists the difference of two member rows of owners t and u.
fn member(
    old: &[u8],
    begin: usize,
    new: &[u8],
    start: usize,
    cells: &[usize; 514],
    what: What,
    t: usize,
    u: usize,
    m: Option<usize>,
    k: Option<usize>,
    list: &mut [u8],
    n: usize,
) -> usize
    requires begin_value { (begin ≡ types_at old.now) × (start ≡ types_at new.now) }
    requires agreed { Agreed old.now new.now cells.now }
    requires t_bound { (t < 65536) × (u < 65536) × (n < 4294967296) }
    requires m_bound { (row_number m ≤ 131072) × (row_number k ≤ 131072) }
    ensures { Listed (member_difference old.now new.now (what_number what) t u (row_number m) (row_number k)) n list.old list.new result }
{
    if agree(old, begin, new, start, cells, m, k) {
        return n;
    }
    entries::put_difference(list, n, number_of(what), t + 1, u + 1, number(m), number(k))
}

// Member row m is required; `first` is where the member rows begin.
fn is_required(table: &[u8], first: usize, m: usize) -> bool
    requires { (first ≡ members_at table.now) × (first < 1048576) × (m < 131072) }
    ensures { result ≡ is_required table.now m }
{
    table::mark_from(table, first, m) == 0
}

// The first required member row of row t, if there is one. `end` is the row after its members.
fn first_required(table: &[u8], begin: usize, t: usize, end: usize) -> Option<usize>
    requires { (begin ≡ types_at table.now) × (end ≤ 131072) }
    ensures { (row_number result ≡ next_of (is_required table.now) (field table.now t 0) end) × (row_number result ≤ 131072) }
{
    let first = table::members_at(table, begin);
    let m = table::field_a(table, begin, t);
    ordering::rows::first(m, end, |i| is_required(table, first, i))
}

// The first required member row after row a, if there is one before `end`; none after no row.
fn following(table: &[u8], first: usize, a: Option<usize>, end: usize) -> Option<usize>
    requires { (first ≡ members_at table.now) × (first < 1048576) × (end ≤ 131072) × (row_number a ≤ 131072) }
    ensures { (row_number result ≡ follow_of (is_required table.now) (row_number a) end) × (row_number result ≤ 131072) }
{
    rows::following(a, end, |i| is_required(table, first, i))
}

// Lists the differences of the required members of owners t and u from rows m and k on; `end` and `stop` are the rows after their members.
fn walk(
    old: &[u8],
    begin: usize,
    new: &[u8],
    start: usize,
    cells: &[usize; 514],
    t: usize,
    u: usize,
    m: Option<usize>,
    end: usize,
    k: Option<usize>,
    stop: usize,
    list: &mut [u8],
    n: usize,
) -> usize
    requires begin_value { (begin ≡ types_at old.now) × (start ≡ types_at new.now) }
    requires agreed { Agreed old.now new.now cells.now }
    requires t_bound { (t < 65536) × (u < 65536) × (end ≤ 131072) × (stop ≤ 131072) × (row_number m ≤ 131072) × (row_number k ≤ 131072) }
    requires stop_bound { n + length (row_differences old.now new.now t u (paired (left_of (is_required old.now) (row_number m) end) (left_of (is_required new.now) (row_number k) stop))) < 4294967296 }
    ensures { Listed (row_differences old.now new.now t u (paired (left_of (is_required old.now) (row_number m) end) (left_of (is_required new.now) (row_number k) stop))) n list.old list.new result }
{
    let first = table::members_at(old, begin);
    let from = table::members_at(new, start);
    let mut a = m;
    let mut b = k;
    let mut i = n;
    // Stays: how far a step goes depends on the rows that it finds, so no `for` counts the steps.
    while rows::is_any(a, b) {
        i = member(
            old,
            begin,
            new,
            start,
            cells,
            What::Required,
            t,
            u,
            a,
            b,
            list,
            i,
        );
        a = following(old, first, a, end);
        b = following(new, from, b, stop);
    }
    i
}

// Lists the differences of the required members of owners t and u.
pub fn required(
    old: &[u8],
    begin: usize,
    new: &[u8],
    start: usize,
    cells: &[usize; 514],
    t: usize,
    u: usize,
    list: &mut [u8],
    n: usize,
) -> usize
    requires begin_value { (begin ≡ types_at old.now) × (start ≡ types_at new.now) }
    requires agreed { Agreed old.now new.now cells.now }
    requires t_bound { (t < 65536) × (u < 65536) × (n + length (required_differences old.now new.now t u) < 4294967296) }
    ensures { Listed (required_differences old.now new.now t u) n list.old list.new result }
{
    let end = table::chain::member_end(old, begin, t);
    let stop = table::chain::member_end(new, start, u);
    let m = first_required(old, begin, t, end);
    let k = first_required(new, start, u, stop);
    walk(
        old, begin, new, start, cells, t, u, m, end, k, stop, list, n,
    )
}

// Lists the difference of the optional members with tag g.
fn tagged(
    old: &[u8],
    begin: usize,
    new: &[u8],
    start: usize,
    cells: &[usize; 514],
    t: usize,
    u: usize,
    g: usize,
    list: &mut [u8],
    n: usize,
) -> usize
    requires begin_value { (begin ≡ types_at old.now) × (start ≡ types_at new.now) }
    requires agreed { Agreed old.now new.now cells.now }
    requires t_bound { (t < 65536) × (u < 65536) × (n < 4294967296) }
    ensures { Listed (tag_difference old.now new.now t u g) n list.old list.new result }
{
    let m = ordering::tags::tag_row(old, begin, t, g);
    let k = ordering::tags::tag_row(new, start, u, g);
    member(
        old,
        begin,
        new,
        start,
        cells,
        What::Optional,
        t,
        u,
        m,
        k,
        list,
        n,
    )
}

// Lists the differences of the optional members with these tags.
fn by_tags(
    old: &[u8],
    begin: usize,
    new: &[u8],
    start: usize,
    cells: &[usize; 514],
    t: usize,
    u: usize,
    tags: &[usize],
    list: &mut [u8],
    n: usize,
) -> usize
    requires begin_value { (begin ≡ types_at old.now) × (start ≡ types_at new.now) }
    requires agreed { Agreed old.now new.now cells.now }
    requires t_bound { (t < 65536) × (u < 65536) }
    requires tags_bound { n + length (member_differences 3 t u (optional_members old.now t) (optional_members new.now u) tags.now) < 4294967296 }
    ensures { Listed (member_differences 3 t u (optional_members old.now t) (optional_members new.now u) tags.now) n list.old list.new result }
{
    let mut i = n;
    for g in tags {
        i = tagged(old, begin, new, start, cells, t, u, *g, list, i);
    }
    i
}

// Lists the differences of the optional members of owners t and u. The array is used for their tags.
pub fn optionals(
    old: &[u8],
    begin: usize,
    new: &[u8],
    start: usize,
    cells: &[usize; 514],
    tags: &mut [usize; 2048],
    t: usize,
    u: usize,
    list: &mut [u8],
    n: usize,
) -> usize
    requires begin_value { (begin ≡ types_at old.now) × (start ≡ types_at new.now) }
    requires agreed { Agreed old.now new.now cells.now }
    requires t_bound { (t < 65536) × (u < 65536) × (length tags.old ≡ 2048) × (field old.now t 1 ≤ 1024) × (field new.now u 1 ≤ 1024) }
    requires u_bound { n + length (optional_differences old.now new.now t u) < 4294967296 }
    ensures listed { Listed (optional_differences old.now new.now t u) n list.old list.new result }
    ensures tags_len { length tags.new ≡ 2048 }
{
    let s = ordering::tags::order(old, begin, t, new, start, u, tags);
    by_tags(old, begin, new, start, cells, t, u, &tags[s..], list, n)
}
