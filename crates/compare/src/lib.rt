// Two tables compared: pairs.rt lists the differences of all pairs of records and parameter lists, this file has the call.
// Stack: the tags of two owners (16,384 bytes), a cell for each row of both tables (4,112) and the records in order (4,096).
#![tactic(auto)]

mod pairs;

ghost use Rattle.std.specs.Prelude.{◌≡◌, ◌+◌, ◌<◌, length};
ghost use Rattle.encoding.specs.Table.{types, types_at, fine, faults};
ghost use Rattle.encoding.specs.Message.{no_top};
ghost use Rattle.agreeing.specs.Agreeing.{Agreed};
ghost use Rattle.differences.specs.Compare.{comparing, differences_listed};
ghost use Rattle.listing.specs.Listing.{enter};
ghost use Rattle.compare.specs.Compared.{compared_of, whole_of};

use differences::Compared;

// The answer to a refusal.
fn refused(refusal: u32, place: u32) -> Compared
    ensures { result ≡ record { refusal = refusal; place = place; count = 0; extends = 0 } }
{
    Compared {
        refusal,
        place,
        count: 0,
        extends: 0,
    }
}

// The row is not in the table, or is no top.
fn no_top(table: &[u8], begin: usize, top: usize) -> bool
    requires { begin ≡ types_at table.now }
    ensures { result ≡ no_top table.now top }
{
    if table::types(table) <= top {
        return true;
    }
    table::kind(table, begin, top) < 13
}

// For a list of so many bytes: lists the differences and answers whether the new table extends the old one, by the cells of the two; 19 where the list is short.
// The differences are counted first, so that a refusal leaves the list as it is.
fn told(
    old: &[u8],
    begin: usize,
    new: &[u8],
    start: usize,
    cells: &[usize; 514],
    t: usize,
    u: usize,
    bytes: usize,
    list: &mut [u8],
) -> Compared
    requires begin_value { (begin ≡ types_at old.now) × (start ≡ types_at new.now) }
    requires agreed { Agreed old.now new.now cells.now }
    requires value { (faults old.now ≡ fine) × (faults new.now ≡ fine) × (t < types old.now) × (u < types new.now) }
    ensures value_2 { result ≡ compared_of (whole_of old.now t new.now u bytes) }
    ensures list_after { list.new ≡ enter 0 (whole_of old.now t new.now u bytes).found list.old }
{
    let mut none = [0u8; 1];
    let n = pairs::all(old, begin, new, start, cells, &mut none);
    if bytes / 20 < n {
        return refused(19, n as u32);
    }
    pairs::all(old, begin, new, start, cells, list);
    let e = matching::extending(old, begin, new, start, cells, t, u);
    Compared {
        refusal: 0,
        place: 0,
        count: n as u32,
        extends: u32::from(e),
    }
}

// The cells of the two tables, then the differences.
fn whole(
    old: &[u8],
    begin: usize,
    new: &[u8],
    start: usize,
    t: usize,
    u: usize,
    bytes: usize,
    list: &mut [u8],
) -> Compared
    requires begin_value { (begin ≡ types_at old.now) × (start ≡ types_at new.now) }
    requires value { (faults old.now ≡ fine) × (faults new.now ≡ fine) × (t < types old.now) × (u < types new.now) }
    ensures value_2 { result ≡ compared_of (whole_of old.now t new.now u bytes) }
    ensures list_after { list.new ≡ enter 0 (whole_of old.now t new.now u bytes).found list.old }
{
    let mut cells = [0usize; 514];
    agreeing::fill(old, begin, new, start, &mut cells);
    told(old, begin, new, start, &cells, t, u, bytes, list)
}

// The answer for two tables that break no rule: 2 for either top, then the differences.
fn sound(old: &[u8], t: usize, new: &[u8], u: usize, bytes: usize, list: &mut [u8]) -> Compared
    requires { (faults old.now ≡ fine) × (faults new.now ≡ fine) }
    ensures value { result ≡ compared_of (comparing old.now t new.now u bytes) }
    ensures list_after { list.new ≡ enter 0 (comparing old.now t new.now u bytes).found list.old }
{
    let begin = table::types_at(old);
    let start = table::types_at(new);
    if no_top(old, begin, t) {
        return refused(2, 0);
    }
    if no_top(new, start, u) {
        return refused(2, 0);
    }
    whole(old, begin, new, start, t, u, bytes, list)
}

// The answer for a list of `bytes` bytes, and the differences in `list`, where they fit.
fn judge(old: &[u8], t: usize, new: &[u8], u: usize, bytes: usize, list: &mut [u8]) -> Compared
    ensures value { result ≡ compared_of (comparing old.now t new.now u bytes) }
    ensures list_after { list.new ≡ enter 0 (comparing old.now t new.now u bytes).found list.old }
{
    match rules::check(old) {
        Err(broken) => refused(broken.number as u32, broken.place as u32),
        Ok(()) => match rules::check(new) {
            Err(broken) => refused(broken.number as u32, (broken.place + 1000000) as u32),
            Ok(()) => sound(old, t, new, u, bytes, list),
        },
    }
}

// Compares two tables: the differences in the lent list, their number, and whether the new table extends the old one and the tops match.
// The order of refusals: the old table's rule, the new one's with its place plus 1,000,000, 2 for either top, 19 at the entries needed.
// Wrong and ruled out: a type that disagrees is not listed; tags that fall; yes though a base differs; a list that is filled on a refusal.
pub fn compare(old: &[u8], t: usize, new: &[u8], u: usize, list: &mut [u8]) -> Compared
    ensures value { result ≡ compared_of (comparing old.now t new.now u (length list.old)) }
    ensures list_after { list.new ≡ differences_listed (comparing old.now t new.now u (length list.old)) list.old }
{
    let bytes = list.len();
    judge(old, t, new, u, bytes, list)
}

// The numbers that `compare` gives for a lent list of so many bytes; no list is touched.
pub fn answer(old: &[u8], t: usize, new: &[u8], u: usize, bytes: usize) -> Compared
    ensures { result ≡ compared_of (comparing old.now t new.now u bytes) }
{
    let mut none = [0u8; 1];
    judge(old, t, new, u, bytes, &mut none)
}
