// The lists of allowed enumerators, in a table of version 2.
ghost use Rattle.std.specs.Prelude.{◌≡◌, map, ◌-◌, ◌<◌, get_or};
ghost use Rattle.encoding.specs.Types.{searched, allows, allowed_of};
ghost use Rattle.encoding.specs.Table.{entries_at, list_entry, range, greatest, entries_of};

// Entry i of the lists. `first` is where the entries begin, so that a loop looks that up once.
pub fn list_entry(table: &[u8], first: usize, i: usize) -> usize
    requires first_value { first ≡ entries_at table.now }
    requires first_bound { (first < 4194304) × (i < 131072) }
    ensures { (result ≡ list_entry table.now i) × (result < 4294967296) }
{
    wire::int_at(table, first + 4 * i)
}

// The last of the d entries from entry c on, 0 if there are none; `first` is where the entries begin.
pub fn last_entry(table: &[u8], first: usize, c: usize, d: usize) -> usize
    requires first_value { first ≡ entries_at table.now }
    requires first_bound { (first < 4194304) × (c < 65536) × (d < 65536) }
    ensures { result ≡ get_or (map (list_entry table.now) (range c d)) (d - 1) 0 }
{
    if d == 0 {
        return 0;
    }
    list_entry(table, first, c + (d - 1))
}

// Number n is found by halving in the list of d entries from entry c on; `first` is where the entries begin.
pub fn searched(table: &[u8], first: usize, c: usize, d: usize, n: usize) -> bool
    requires first_value { first ≡ entries_at table.now }
    requires first_bound { (first < 4194304) × (c < 65536) × (d < 65536) }
    ensures { result ≡ searched d (map (list_entry table.now) (range c d)) n 0 d }
{
    // Stays: the definition is this halving itself, which fixes the answer of a list that is not in order, and entries are bytes of the table, no slice of numbers that `binary_search` takes.
    let mut lo = 0;
    let mut hi = d;
    while lo < hi {
        let mid = (lo + hi) / 2;
        let x = list_entry(table, first, c + mid);
        if x == n {
            return true;
        }
        if x < n {
            lo = mid + 1;
        } else {
            hi = mid;
        }
    }
    false
}
