// A difference as 20 bytes of a lent list: five numbers of four bytes.
ghost use Rattle.std.specs.Prelude.{◌≡◌, [], ◌∷◌, ◌+◌, ◌*◌, ◌≤◌, ◌<◌, length};
ghost use Rattle.wire.specs.Put.{put};
ghost use Rattle.differences.specs.Compare.{difference_bytes};
ghost use Rattle.listing.specs.Listing.{Listed, what_number};

// Puts the five numbers into the difference's own 20 bytes.
fn put_five(entry: &mut [u8], what: usize, owner: usize, other: usize, member: usize, mate: usize)
    requires { length entry.old ≡ 20 }
    ensures { entry.new ≡ difference_bytes (record { what = what; owner = owner; owner' = other; member = member; member' = mate }) }
{
    wire::put_number(entry, 0, 4, what);
    wire::put_number(entry, 4, 4, owner);
    wire::put_number(entry, 8, 4, other);
    wire::put_number(entry, 12, 4, member);
    wire::put_number(entry, 16, 4, mate);
}

// Puts difference n into a list that has room for it.
fn put_entry(
    list: &mut [u8],
    n: usize,
    what: usize,
    owner: usize,
    other: usize,
    member: usize,
    mate: usize,
)
    requires { 20 * n + 20 ≤ length list.old }
    ensures { list.new ≡ put (20 * n) (difference_bytes (record { what = what; owner = owner; owner' = other; member = member; member' = mate })) list.old }
{
    let a = 20 * n;
    put_five(&mut list[a..a + 20], what, owner, other, member, mate);
}

// What a difference is of.
#[derive(Clone, Copy)]
pub enum What {
    Owner,
    Base,
    Required,
    Optional,
}

// Its number in a difference.
pub fn number_of(what: What) -> usize
    ensures { result ≡ what_number what }
{
    match what {
        What::Owner => 0,
        What::Base => 1,
        What::Required => 2,
        What::Optional => 3,
    }
}

// Lists one difference.
pub fn put_difference(
    list: &mut [u8],
    n: usize,
    what: usize,
    owner: usize,
    other: usize,
    member: usize,
    mate: usize,
) -> usize
    requires { n < 4294967296 }
    ensures { Listed (record { what = what; owner = owner; owner' = other; member = member; member' = mate } ∷ []) n list.old list.new result }
{
    if n < list.len() / 20 {
        put_entry(list, n, what, owner, other, member, mate);
        return n + 1;
    }
    n + 1
}
