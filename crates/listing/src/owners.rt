// The differences of two owners: base, required members, optional members; and those of a pair of rows.
ghost use Rattle.std.specs.Prelude.{◌≡◌, ◌+◌, ◌≤◌, ◌<◌, length};
ghost use Rattle.encoding.specs.Table.{types_at, field};
ghost use Rattle.agreeing.specs.Agreeing.{Agreed};
ghost use Rattle.differences.specs.Compare.{bases_differ, base_difference, owner_differences, pair_differences};
ghost use Rattle.ordering.specs.Ordering.{row_number};
ghost use Rattle.listing.specs.Listing.{Listed, FewMembers};

use crate::entries::{What, number_of};
use crate::{entries, members};
use ordering::rows::number;

// One base row + 1, or 0 for none, is there and the other not, or their names differ.
fn bases_differ(old: &[u8], begin: usize, new: &[u8], start: usize, b: usize, c: usize) -> bool
    requires { (begin ≡ types_at old.now) × (start ≡ types_at new.now) }
    ensures { result ≡ bases_differ old.now new.now b c }
{
    if b == 0 {
        return c != 0;
    }
    if c == 0 {
        return true;
    }
    !ordering::names::same_names(old, begin, b - 1, new, start, c - 1)
}

// Lists the difference of the bases of rows t and u.
fn bases(
    old: &[u8],
    begin: usize,
    new: &[u8],
    start: usize,
    t: usize,
    u: usize,
    list: &mut [u8],
    n: usize,
) -> usize
    requires begin_value { (begin ≡ types_at old.now) × (start ≡ types_at new.now) }
    requires t_bound { (t < 65536) × (u < 65536) × (n < 4294967296) }
    ensures { Listed (base_difference old.now new.now t u) n list.old list.new result }
{
    let b = table::chain::base(old, begin, t);
    let c = table::chain::base(new, start, u);
    if bases_differ(old, begin, new, start, b, c) {
        return entries::put_difference(list, n, number_of(What::Base), t + 1, u + 1, 0, 0);
    }
    n
}

// Lists the differences of owners t and u. The array is used for their tags.
fn owners(
    old: &[u8],
    begin: usize,
    new: &[u8],
    start: usize,
    cells: &[usize; 514],
    tags: &mut [usize; 2048],
    t: usize,
    u: usize,
    list: &mut [u8],
    n: usize,
) -> usize
    requires begin_value { (begin ≡ types_at old.now) × (start ≡ types_at new.now) }
    requires agreed { Agreed old.now new.now cells.now }
    requires t_bound { (t < 65536) × (u < 65536) × (length tags.old ≡ 2048) × (field old.now t 1 ≤ 1024) × (field new.now u 1 ≤ 1024) }
    requires u_bound { n + length (owner_differences old.now new.now t u) < 4294967296 }
    ensures listed { Listed (owner_differences old.now new.now t u) n list.old list.new result }
    ensures tags_len { length tags.new ≡ 2048 }
{
    let i = bases(old, begin, new, start, t, u, list, n);
    let j = members::required(old, begin, new, start, cells, t, u, list, i);
    members::optionals(old, begin, new, start, cells, tags, t, u, list, j)
}

// Lists the differences of a pair of rows, of which one may be missing. The array is used for tags.
pub fn pair(
    old: &[u8],
    begin: usize,
    new: &[u8],
    start: usize,
    cells: &[usize; 514],
    tags: &mut [usize; 2048],
    o: Option<usize>,
    p: Option<usize>,
    list: &mut [u8],
    n: usize,
) -> usize
    requires begin_value { (begin ≡ types_at old.now) × (start ≡ types_at new.now) }
    requires agreed { Agreed old.now new.now cells.now }
    requires o_bound { (row_number o ≤ 65536) × (row_number p ≤ 65536) × (length tags.old ≡ 2048) × FewMembers old.now (row_number o) × FewMembers new.now (row_number p) }
    requires p_bound { n + length (pair_differences old.now new.now (row_number o) (row_number p)) < 4294967296 }
    ensures listed { Listed (pair_differences old.now new.now (row_number o) (row_number p)) n list.old list.new result }
    ensures tags_len { length tags.new ≡ 2048 }
{
    match o {
        Some(t) => match p {
            Some(u) => owners(old, begin, new, start, cells, tags, t, u, list, n),
            None => entries::put_difference(list, n, number_of(What::Owner), t + 1, 0, 0, 0),
        },
        None => entries::put_difference(list, n, number_of(What::Owner), 0, number(p), 0, 0),
    }
}
