// A record's bases, and the member rows that a row takes.
ghost use Rattle.std.specs.Prelude.{◌≡◌, ◌+◌, ◌-◌, ◌≤◌, ◌<◌, length, eqb};
ghost use Rattle.encoding.specs.Table.{any, field, types_at, members_at, member_at, takes, lookup, base, chain};
ghost use Rattle.table.specs.Found.{member_found};
ghost use Rattle.table.specs.Rows.{IsTypeRow, Whole};
ghost use Rattle.table.specs.Tags.{optional_from, first_required, has_optional, behind};

use crate::{TaggedMember, TypeRow};

// The base row + 1, or 0 if row t has no base; a base that is not a smaller row is none.
pub fn base_of(table: &[u8], row: TypeRow, t: usize) -> usize
    requires { IsTypeRow table.now t row }
    ensures { (result ≡ base table.now t) × (result ≤ t) }
{
    if crate::is_record(row.kind) && row.c <= t {
        return row.c;
    }
    0
}

// The same of a row that is looked up. Here and below, `begin` is where the type rows begin.
pub fn base(table: &[u8], begin: usize, t: usize) -> usize
    requires { begin ≡ types_at table.now }
    ensures { (result ≡ base table.now t) × (result ≤ t) }
{
    base_of(table, crate::type_row(table, begin, t), t)
}

// Row top is row t or one of its bases.
pub fn in_chain(table: &[u8], t: usize, top: usize) -> bool
    ensures { result ≡ any (λ o. eqb o top) (chain table.now t) }
{
    let begin = crate::types_at(table);
    let mut o = t;
    // Stays: the next row is read from the table, and a row without a base ends the line: that is no `for`.
    loop {
        if o == top {
            return true;
        }
        let b = base(table, begin, o);
        if b == 0 {
            return false;
        }
        o = b - 1;
    }
}

// Member row m is one of the rows that row t takes by its fields a and b.
fn takes(table: &[u8], begin: usize, t: usize, m: usize) -> bool
    requires { begin ≡ types_at table.now }
    ensures { result ≡ takes table.now t m }
{
    let row = crate::type_row(table, begin, t);
    row.a <= m && m < row.a + row.b
}

// Member row m is one of row t or of its bases.
pub fn of_chain(table: &[u8], t: usize, m: usize) -> bool
    ensures { result ≡ any (λ o. takes table.now o m) (chain table.now t) }
{
    let begin = crate::types_at(table);
    let mut o = t;
    // Stays: the next row is read from the table, and a row without a base ends the line: that is no `for`.
    loop {
        if takes(table, begin, o, m) {
            return true;
        }
        let b = base(table, begin, o);
        if b == 0 {
            return false;
        }
        o = b - 1;
    }
}

// The row after the member rows that row t takes.
pub fn member_end(table: &[u8], begin: usize, t: usize) -> usize
    requires { begin ≡ types_at table.now }
    ensures { (result ≡ field table.now t 0 + field table.now t 1) × (result ≤ 131072) }
{
    let row = crate::type_row(table, begin, t);
    row.a + row.b
}

// The optional member with this tag, and the row of its type. Looks at the member rows `from` to `end` - 1, which lie inside the table; `first` is where the member rows begin.
fn tag_member_in(
    table: &[u8],
    first: usize,
    end: usize,
    from: usize,
    tag: usize,
) -> Option<TaggedMember>
    requires first_value { first ≡ members_at table.now }
    requires end_in_bounds { member_at table.now end ≤ length table.now }
    ensures { result ≡ member_found table.now (lookup tag (optional_from table.now end from)) }
{
    for m in from..end {
        let row = crate::member_row_in(table, first, m);
        if row.mark != 0 && tag == row.tag {
            return Some(TaggedMember {
                member: m,
                of: row.of,
            });
        }
    }
    None
}

// The same for any table: the missing bytes of a row outside are 0.
// Stays: the two loops differ in how a row is read; of rows inside none is tested against the table's end.
pub fn tag_member(
    table: &[u8],
    first: usize,
    end: usize,
    from: usize,
    tag: usize,
) -> Option<TaggedMember>
    requires first_value { (first ≡ members_at table.now) × (first < 1048576) }
    requires end_bound { end ≤ 131072 }
    ensures { result ≡ member_found table.now (lookup tag (optional_from table.now end from)) }
{
    if crate::member_at(table, first, end) <= table.len() {
        return tag_member_in(table, first, end, from, tag);
    }
    for m in from..end {
        let row = crate::member_row_from(table, first, m);
        if row.mark != 0 && tag == row.tag {
            return Some(TaggedMember {
                member: m,
                of: row.of,
            });
        }
    }
    None
}

// Row m, or a later one with the same first required row: four rows are passed at a time, as long as all four are optional. Rows m to `end` - 1 lie inside the table; `first` is where the member rows begin.
// The marks of four rows are joined, so that four rows take one test: the result is 0 if one of the marks is 0.
fn past_fours(table: &[u8], first: usize, m: usize, end: usize) -> usize
    requires first_value { first ≡ members_at table.now }
    requires end_in_bounds { member_at table.now end ≤ length table.now }
    requires m_le_end { m ≤ end }
    ensures result_value { first_required table.now result (end - result) ≡ first_required table.now m (end - m) }
    ensures lower_bound { (m ≤ result) × (result ≤ end) }
{
    let fours = (end - m) / 4;
    for k in 0..fours {
        let a = crate::member_at(table, first, m + 4 * k) + 2;
        if table[a] & table[a + 8] & table[a + 16] & table[a + 24] == 0 {
            return m + 4 * k;
        }
    }
    m + 4 * fours
}

// The first required row of member rows m to `end` - 1, or `end`; `first` is where the member rows begin.
pub fn required_from(table: &[u8], first: usize, m: usize, end: usize) -> usize
    requires first_value { (first ≡ members_at table.now) × (first < 1048576) }
    requires m_le_end { (m ≤ end) × (end ≤ 131072) }
    ensures { (result ≡ first_required table.now m (end - m)) × ((m ≤ result) × (result ≤ end)) }
{
    let inside = crate::member_at(table, first, end) <= table.len();
    let start = if inside {
        past_fours(table, first, m, end)
    } else {
        m
    };
    for i in start..end {
        if crate::mark_from(table, first, i) == 0 {
            return i;
        }
    }
    end
}

// A row of m to `end` from which on no member row before `end` is required.
pub fn bare_from(table: &[u8], first: usize, m: usize, end: usize) -> usize
    requires first_value { (first ≡ members_at table.now) × (first < 1048576) }
    requires m_le_end { (m ≤ end) × (end ≤ 131072) }
    ensures { (first_required table.now result (end - result) ≡ end) × (result ≤ end) }
{
    // Stays: each turn goes on after the required row that was found: a step that depends on the bytes read is no `for`.
    let mut from = m;
    let mut i = required_from(table, first, m, end);
    while i < end {
        from = i + 1;
        i = required_from(table, first, from, end);
    }
    from
}

// `end`, if the member rows before it are members of the table and lie inside it; else 0.
pub fn whole(table: &[u8], first: usize, end: usize) -> usize
    requires first_value { (first ≡ members_at table.now) × (first < 1048576) }
    requires end_bound { end ≤ 131072 }
    ensures { (result ≤ end) × (0 < result → Whole table.now result) }
{
    if crate::members(table) < end {
        return 0;
    }
    if table.len() < crate::member_at(table, first, end) {
        return 0;
    }
    end
}

// Row m, or a later one after which the same optional rows are left: four rows are passed at a time, as long as all four are required. Rows m to `end` - 1 lie inside the table; the marks are joined in the same way.
// Stays: it differs from `past_fours` by operator, comparison and what it promises, so that one function for both would take three parameters.
fn past_requireds(table: &[u8], first: usize, m: usize, end: usize) -> usize
    requires first_value { first ≡ members_at table.now }
    requires end_in_bounds { member_at table.now end ≤ length table.now }
    requires m_le_end { m ≤ end }
    ensures result_value { has_optional table.now result (end - result) ≡ has_optional table.now m (end - m) }
    ensures upper_bound { result ≤ end }
{
    let fours = (end - m) / 4;
    for k in 0..fours {
        let a = crate::member_at(table, first, m + 4 * k) + 2;
        if table[a] | table[a + 8] | table[a + 16] | table[a + 24] != 0 {
            return m + 4 * k;
        }
    }
    m + 4 * fours
}

// Some of member rows m to `end` - 1 is optional; `first` is where the member rows begin.
pub fn has_optional(table: &[u8], first: usize, m: usize, end: usize) -> bool
    requires first_value { (first ≡ members_at table.now) × (first < 1048576) }
    requires m_le_end { (m ≤ end) × (end ≤ 131072) }
    ensures { result ≡ has_optional table.now m (end - m) }
{
    let inside = crate::member_at(table, first, end) <= table.len();
    let start = if inside {
        past_requireds(table, first, m, end)
    } else {
        m
    };
    for i in start..end {
        if crate::mark_from(table, first, i) != 0 {
            return true;
        }
    }
    false
}

// Where to look up the next tag, after `tag` was found at member row m by a look-up from row `from`: at the first optional row before m with a greater tag, else after m. `first` is where the member rows begin.
pub fn behind(table: &[u8], first: usize, from: usize, m: usize, tag: usize) -> usize
    requires first_value { (first ≡ members_at table.now) × (first < 1048576) }
    requires m_bound { m < 131072 }
    ensures { result ≡ behind table.now from m tag }
{
    for i in from..m {
        let row = crate::member_row_from(table, first, i);
        if row.mark != 0 && tag < row.tag {
            return i;
        }
    }
    m + 1
}
