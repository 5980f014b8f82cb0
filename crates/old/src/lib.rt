// Where encoding 1.0 cannot be used (26): a row of the top's line of descent has optionals.
// Computed for a message of 1.0 and a writer's format 2 alone. A base is a smaller row, so only the rows after the top may descend from it.
#![tactic(auto)]

ghost use Rattle.std.specs.Prelude.{◌≡◌, ◌&&◌, ◌+◌, ◌-◌, ◌<◌, ltb};
ghost use Rattle.encoding.specs.Table.{types, types_at, members_at, range, any, optional_members, chain};
ghost use Rattle.encoding.specs.Old.{descends, any_of, no_old};

// Row t has optional members. Here and below, `begin` is where the type rows begin, `first` where the member rows begin.
fn has_optionals(table: &[u8], begin: usize, first: usize, t: usize) -> bool
    requires begin_value { begin ≡ types_at table.now }
    requires first_value { (first ≡ members_at table.now) × (first < 1048576) }
    ensures { result ≡ any_of (optional_members table.now t) }
{
    let owner = table::type_row(table, begin, t);
    table::chain::has_optional(table, first, owner.a, owner.a + owner.b)
}

// Row o is one of the table's n rows, and has optional members.
fn bars(table: &[u8], begin: usize, first: usize, n: usize, o: usize) -> bool
    requires begin_value { begin ≡ types_at table.now }
    requires first_value { (first ≡ members_at table.now) × (first < 1048576) }
    requires n_value { n ≡ types table.now }
    ensures { result ≡ ltb o (types table.now) && any_of (optional_members table.now o) }
{
    o < n && has_optionals(table, begin, first, o)
}

// The top or a base of it has optional members.
fn above(table: &[u8], begin: usize, n: usize, top: usize) -> bool
    requires begin_value { begin ≡ types_at table.now }
    requires n_value { n ≡ types table.now }
    ensures { result ≡ any (λ o. ltb o (types table.now) && any_of (optional_members table.now o)) (chain table.now top) }
{
    let first = table::members_at(table, begin);
    let mut o = top;
    // Stays: the next row is read from the table, and a row without a base ends the line: that is no `for`.
    loop {
        if bars(table, begin, first, n, o) {
            return true;
        }
        let b = table::chain::base(table, begin, o);
        if b == 0 {
            return false;
        }
        o = b - 1;
    }
}

// Row t, after the top, descends from it and has optional members.
fn inherits(table: &[u8], begin: usize, first: usize, top: usize, t: usize) -> bool
    requires begin_value { begin ≡ types_at table.now }
    requires first_value { (first ≡ members_at table.now) × (first < 1048576) }
    requires top_lt_t { top < t }
    ensures { result ≡ descends table.now top t && any_of (optional_members table.now t) }
{
    table::is_record(table::kind(table, begin, t))
        && table::chain::in_chain(table, t, top)
        && has_optionals(table, begin, first, t)
}

// Some row after the top descends from it and has optional members.
fn below(table: &[u8], begin: usize, n: usize, top: usize) -> bool
    requires begin_value { begin ≡ types_at table.now }
    requires top_lt_n { top < n }
    ensures { result ≡ any (λ t. descends table.now top t && any_of (optional_members table.now t)) (range (top + 1) (n - (top + 1))) }
{
    let first = table::members_at(table, begin);
    for t in top + 1..n {
        if inherits(table, begin, first, top, t) {
            return true;
        }
    }
    false
}

// The top, a base of it, or a record that descends from it has optional members.
// Wrong and ruled out: false where only a record that descends from the top has optionals; where only a base has.
pub fn no_old(table: &[u8], begin: usize, top: usize) -> bool
    requires { begin ≡ types_at table.now }
    ensures { result ≡ no_old table.now top }
{
    let n = table::types(table);
    above(table, begin, n, top) || top < n && below(table, begin, n, top)
}
