// Look-ups in a type table: rows, kinds, members. Each equals its definition on any bytes: past the end is 0.
// naming.rt has the records' names, chain.rt the bases and the member rows of a row, allowed.rt the lists of allowed enumerators.
// Every place in a table is computed here, by `types_at` to `field_at` and the two that stop at the table's end. Places depend on the version:
// the look-ups of type rows are passed `begin`, where the type rows begin, so that a function looks at the version once.
#![tactic(auto)]

pub mod allowed;
pub mod chain;
pub mod naming;

ghost use Rattle.std.specs.Prelude.{◌≡◌, ◌+◌, ◌*◌, ◌≤◌, ◌<◌, length, drop};
ghost use Rattle.encoding.specs.Types.{allows, most};
ghost use Rattle.encoding.specs.Table.{with_lists, types, members, names, entries, types_at, row_at, members_at, member_at, names_at, entries_at, field_at, is_record, owns, kind, field, member_type, mark, tag, allowed, type_rows, trees, ty_of, member_ty};
ghost use Rattle.table.specs.Rows.{IsTypeRow, IsMemberRow, greatest_of};

// An optional member that a tag names: its member row, and the row number of its type.
#[derive(Clone, Copy)]
pub struct TaggedMember {
    pub member: usize,
    pub of: usize,
}

// A type row: its kind, its zero byte, its fields a to e.
#[derive(Clone, Copy)]
pub struct TypeRow {
    pub kind: usize,
    pub spare: usize,
    pub a: usize,
    pub b: usize,
    pub c: usize,
    pub d: usize,
    pub e: usize,
}

// A member row: its type, its mark (0 required, 1 optional), its zero byte, its tag.
#[derive(Clone, Copy)]
pub struct MemberRow {
    pub of: usize,
    pub mark: usize,
    pub spare: usize,
    pub tag: usize,
}

// T of the header.
pub fn types(table: &[u8]) -> usize
    ensures { (result ≡ types table.now) × (result < 65536) }
{
    wire::short_at(table, 5)
}

// M of the header.
pub fn members(table: &[u8]) -> usize
    ensures { (result ≡ members table.now) × (result < 65536) }
{
    wire::short_at(table, 7)
}

// N of the header.
pub fn names(table: &[u8]) -> usize
    ensures { (result ≡ names table.now) × (result < 65536) }
{
    wire::short_at(table, 9)
}

// How many rows have a type tree.
pub fn rows(table: &[u8]) -> usize
    ensures { (result ≡ type_rows table.now) × (result ≤ 256) }
{
    // Stays: with `min` each reader of a value tests its row against 256 and 65,536 again, since the compiler bounds rows before it inlines `min`.
    let n = types(table);
    if n <= 256 {
        return n;
    }
    256
}

// Where the type rows begin: after the header, which version 2, as two bytes, makes longer.
pub fn types_at(table: &[u8]) -> usize
    ensures { (result ≡ types_at table.now) × ((12 ≤ result) × (result ≤ 64)) }
{
    if wire::byte_at(table, 3) == 2 && wire::byte_at(table, 4) == 0 {
        return 14;
    }
    12
}

// The table has lists of allowed enumerators. Here and below, `begin` is where the type rows begin.
pub fn with_lists(table: &[u8], begin: usize) -> bool
    requires { begin ≡ types_at table.now }
    ensures { result ≡ with_lists table.now }
{
    begin == 14
}

// E of the header; a table without lists has none.
pub fn entries(table: &[u8], begin: usize) -> usize
    requires { begin ≡ types_at table.now }
    ensures { (result ≡ entries table.now) × (result < 65536) }
{
    if with_lists(table, begin) {
        return wire::short_at(table, 12);
    }
    0
}

// Where type row t begins.
pub fn row_at(table: &[u8], begin: usize, t: usize) -> usize
    requires begin_value { begin ≡ types_at table.now }
    requires t_bound { row_at table.now t < 18446744073709551616 }
    ensures { result ≡ row_at table.now t }
{
    begin + 12 * t
}

// Where the member rows begin: after the type rows.
pub fn members_at(table: &[u8], begin: usize) -> usize
    requires { begin ≡ types_at table.now }
    ensures { (result ≡ members_at table.now) × (result < 1048576) }
{
    row_at(table, begin, types(table))
}

// Where member row m begins. `first` is where the member rows begin, so that a loop looks that up once.
pub fn member_at(table: &[u8], first: usize, m: usize) -> usize
    requires first_value { first ≡ members_at table.now }
    requires m_bound { member_at table.now m < 18446744073709551616 }
    ensures { result ≡ member_at table.now m }
{
    first + 8 * m
}

// Where the names begin: after the member rows.
pub fn names_at(table: &[u8], begin: usize) -> usize
    requires { begin ≡ types_at table.now }
    ensures { (result ≡ names_at table.now) × (result < 2097152) }
{
    member_at(table, members_at(table, begin), members(table))
}

// The same, of a table with both counts inside it, which are read without a test.
fn names_at_in(table: &[u8], begin: usize) -> usize
    requires begin_value { begin ≡ types_at table.now }
    requires counts_in_bounds { 9 ≤ length table.now }
    ensures { (result ≡ names_at table.now) × (result < 2097152) }
{
    let counts = &table[5..9];
    begin + 12 * wire::short_at(counts, 0) + 8 * wire::short_at(counts, 2)
}

// Where the entries of the lists begin: after the names.
pub fn entries_at(table: &[u8], begin: usize) -> usize
    requires { begin ≡ types_at table.now }
    ensures { (result ≡ entries_at table.now) × (result < 4194304) }
{
    names_at(table, begin) + names(table)
}

// Where field i is within a type row.
fn field_at(i: usize) -> usize
    requires { field_at i < 18446744073709551616 }
    ensures { result ≡ field_at i }
{
    2 + 2 * i
}

// Where type row t begins, or the table's end if it begins past it.
fn row_or_end(table: &[u8], begin: usize, t: usize) -> usize
    requires { begin ≡ types_at table.now }
    ensures { (result ≤ length table.now) × (drop result table.now ≡ drop (row_at table.now t) table.now) }
{
    if table.len() <= begin {
        return table.len();
    }
    if (table.len() - begin) / 12 < t {
        return table.len();
    }
    row_at(table, begin, t)
}

// Where member row m begins, or the table's end if it begins past it.
fn member_or_end(table: &[u8], m: usize) -> usize
    ensures { (result ≤ length table.now) × (drop result table.now ≡ drop (member_at table.now m) table.now) }
{
    let first = members_at(table, types_at(table));
    if table.len() <= first {
        return table.len();
    }
    if (table.len() - first) / 8 < m {
        return table.len();
    }
    member_at(table, first, m)
}

// A type row's kind.
pub fn kind(table: &[u8], begin: usize, t: usize) -> usize
    requires { begin ≡ types_at table.now }
    ensures { (result ≡ kind table.now t) × (result < 256) }
{
    if t < 65536 {
        return wire::byte_at(table, row_at(table, begin, t));
    }
    let a = row_or_end(table, begin, t);
    wire::byte_at(&table[a..], 0)
}

// The kind of a type row whose first byte lies inside the table.
pub fn kind_in(table: &[u8], begin: usize, t: usize) -> usize
    requires begin_value { begin ≡ types_at table.now }
    requires t_in_bounds { row_at table.now t < length table.now }
    ensures { (result ≡ kind table.now t) × (result < 256) }
{
    wire::wide(table[row_at(table, begin, t)])
}

// A type row's fields a, b, c, d, e as i = 0..4.
pub fn field(table: &[u8], begin: usize, t: usize, i: usize) -> usize
    requires { begin ≡ types_at table.now }
    ensures { (result ≡ field table.now t i) × (result < 65536) }
{
    if table.len() / 2 <= i {
        return 0;
    }
    let a = row_or_end(table, begin, t);
    wire::short_at(&table[a..], field_at(i))
}

// Field I of a type row; faster than `field` where the row number is below 65,536.
fn field_near<const I: usize>(table: &[u8], begin: usize, t: usize) -> usize
    requires begin_value { begin ≡ types_at table.now }
    requires i_bound { I ≤ 4 }
    ensures { (result ≡ field table.now t I) × (result < 65536) }
{
    if t < 65536 {
        return wire::short_at(table, row_at(table, begin, t) + field_at(I));
    }
    field(table, begin, t, I)
}

// A type row's field a, in this way.
pub fn field_a(table: &[u8], begin: usize, t: usize) -> usize
    requires { begin ≡ types_at table.now }
    ensures { (result ≡ field table.now t 0) × (result < 65536) }
{
    field_near::<0>(table, begin, t)
}

// A type row's field b, in this way.
pub fn field_b(table: &[u8], begin: usize, t: usize) -> usize
    requires { begin ≡ types_at table.now }
    ensures { (result ≡ field table.now t 1) × (result < 65536) }
{
    field_near::<1>(table, begin, t)
}

// Type row t where it is not wholly inside the table: what is missing is 0.
// Long, since each field is looked up by itself: never inlined, so that `type_row` stays small.
#[inline(never)]
fn type_row_outside(table: &[u8], begin: usize, t: usize) -> TypeRow
    requires { begin ≡ types_at table.now }
    ensures { IsTypeRow table.now t result }
{
    let start = row_or_end(table, begin, t);
    TypeRow {
        kind: kind(table, begin, t),
        spare: wire::byte_at(&table[start..], 1),
        a: field(table, begin, t, 0),
        b: field(table, begin, t, 1),
        c: field(table, begin, t, 2),
        d: field(table, begin, t, 3),
        e: field(table, begin, t, 4),
    }
}

// Type row t, which lies inside the table.
pub fn type_row_in(table: &[u8], begin: usize, t: usize) -> TypeRow
    requires begin_value { begin ≡ types_at table.now }
    requires t_in_bounds { row_at table.now (t + 1) ≤ length table.now }
    ensures { IsTypeRow table.now t result }
{
    let start = row_at(table, begin, t);
    let end = row_at(table, begin, t + 1);
    let bytes = &table[start..end];
    TypeRow {
        kind: wire::byte_at(bytes, 0),
        spare: wire::byte_at(bytes, 1),
        a: wire::short_at(bytes, field_at(0)),
        b: wire::short_at(bytes, field_at(1)),
        c: wire::short_at(bytes, field_at(2)),
        d: wire::short_at(bytes, field_at(3)),
        e: wire::short_at(bytes, field_at(4)),
    }
}

// Type row t. One that lies outside is taken apart and put together again, so that the returned row is lent to no call and its fields stay in registers.
pub fn type_row(table: &[u8], begin: usize, t: usize) -> TypeRow
    requires { begin ≡ types_at table.now }
    ensures { IsTypeRow table.now t result }
{
    if 65536 <= t || table.len() < row_at(table, begin, t + 1) {
        let TypeRow {
            kind,
            spare,
            a,
            b,
            c,
            d,
            e,
        } = type_row_outside(table, begin, t);
        return TypeRow {
            kind,
            spare,
            a,
            b,
            c,
            d,
            e,
        };
    }
    type_row_in(table, begin, t)
}

// The type of member row m.
fn member_type(table: &[u8], m: usize) -> usize
    ensures { (result ≡ member_type table.now m) × (result < 65536) }
{
    let a = member_or_end(table, m);
    wire::short_at(&table[a..], 0)
}

// The mark of member row m.
fn mark(table: &[u8], m: usize) -> usize
    ensures { (result ≡ mark table.now m) × (result < 256) }
{
    let a = member_or_end(table, m);
    wire::byte_at(&table[a..], 2)
}

// The tag of member row m.
fn tag(table: &[u8], m: usize) -> usize
    ensures { (result ≡ tag table.now m) × (result < 4294967296) }
{
    let a = member_or_end(table, m);
    wire::int_at(&table[a..], 4)
}

// Member row m where it is not wholly inside the table: what is missing is 0. It is kept out of `member_row` in the same way.
#[inline(never)]
fn member_row_outside(table: &[u8], m: usize) -> MemberRow
    ensures { IsMemberRow table.now m result }
{
    let start = member_or_end(table, m);
    MemberRow {
        of: member_type(table, m),
        mark: mark(table, m),
        spare: wire::byte_at(&table[start..], 3),
        tag: tag(table, m),
    }
}

// Member row m, which lies inside the table; `first` is where the member rows begin.
pub fn member_row_in(table: &[u8], first: usize, m: usize) -> MemberRow
    requires first_value { first ≡ members_at table.now }
    requires m_in_bounds { member_at table.now (m + 1) ≤ length table.now }
    ensures { IsMemberRow table.now m result }
{
    let start = member_at(table, first, m);
    let end = member_at(table, first, m + 1);
    let bytes = &table[start..end];
    MemberRow {
        of: wire::short_at(bytes, 0),
        mark: wire::byte_at(bytes, 2),
        spare: wire::byte_at(bytes, 3),
        tag: wire::int_at(bytes, 4),
    }
}

// Member row m; `first` is where the member rows begin. One that lies outside is taken apart and put together again in the same way.
pub fn member_row_from(table: &[u8], first: usize, m: usize) -> MemberRow
    requires first_value { first ≡ members_at table.now }
    requires first_bound { (first < 1048576) × (m < 131072) }
    ensures { IsMemberRow table.now m result }
{
    if table.len() < member_at(table, first, m + 1) {
        let MemberRow {
            of,
            mark,
            spare,
            tag,
        } = member_row_outside(table, m);
        return MemberRow {
            of,
            mark,
            spare,
            tag,
        };
    }
    member_row_in(table, first, m)
}

// Member row m of any number; `first` is where the member rows begin.
pub fn member_row(table: &[u8], first: usize, m: usize) -> MemberRow
    requires first_value { first ≡ members_at table.now }
    requires first_bound { first < 1048576 }
    ensures { IsMemberRow table.now m result }
{
    if 131072 <= m {
        let MemberRow {
            of,
            mark,
            spare,
            tag,
        } = member_row_outside(table, m);
        return MemberRow {
            of,
            mark,
            spare,
            tag,
        };
    }
    member_row_from(table, first, m)
}

// The mark of member row m; `first` is where the member rows begin. A loop that asks for nothing else of a row is shorter by it.
pub fn mark_from(table: &[u8], first: usize, m: usize) -> usize
    requires first_value { first ≡ members_at table.now }
    requires first_bound { (first < 1048576) × (m < 131072) }
    ensures { result ≡ mark table.now m }
{
    wire::byte_at(table, member_at(table, first, m) + 2)
}

// The type of member row m, in the same way.
pub fn type_from(table: &[u8], first: usize, m: usize) -> usize
    requires first_value { first ≡ members_at table.now }
    requires first_bound { (first < 1048576) × (m < 131072) }
    ensures { result ≡ member_type table.now m }
{
    wire::short_at(table, member_at(table, first, m))
}

// As `member_row_from`, without a call, so that the numbers of a loop stay in registers.
// Stays: with `member_row_from` in its place the writer takes 1.5 percent more instructions for a record (callgrind), and in the place of `member_row_from` this takes 3 percent more for a read of 33 ints.
pub fn member_row_flat(table: &[u8], first: usize, m: usize) -> MemberRow
    requires first_value { first ≡ members_at table.now }
    requires first_bound { (first < 1048576) × (m < 131072) }
    ensures { IsMemberRow table.now m result }
{
    if table.len() < member_at(table, first, m + 1) {
        let start = member_at(table, first, m);
        return MemberRow {
            of: wire::short_at(table, start),
            mark: wire::byte_at(table, start + 2),
            spare: wire::byte_at(table, start + 3),
            tag: wire::int_at(table, start + 4),
        };
    }
    member_row_in(table, first, m)
}

// The greatest enumerator of an enum row: field a is its low half, b its high half.
pub fn greatest(row: TypeRow) -> usize
    requires { (row.a < 65536) × (row.b < 65536) }
    ensures { result ≡ greatest_of row }
{
    row.a + 65536 * row.b
}

// Enum row t allows enumerator n. A list of all numbers up to the greatest is not searched.
pub fn allows(table: &[u8], t: usize, n: usize) -> bool
    ensures { result ≡ allows (allowed table.now t) n }
{
    let begin = types_at(table);
    let row = type_row(table, begin, t);
    let g = greatest(row);
    if with_lists(table, begin) {
        if row.d != g + 1 {
            return allowed::searched(table, entries_at(table, begin), row.c, row.d, n);
        }
    }
    n <= g
}

// The greatest enumerator that enum row t allows: of a list with holes its last entry.
pub fn most(table: &[u8], begin: usize, t: usize) -> usize
    requires { begin ≡ types_at table.now }
    ensures { result ≡ most (allowed table.now t) }
{
    let row = type_row(table, begin, t);
    let g = greatest(row);
    if with_lists(table, begin) {
        if row.d != g + 1 {
            return allowed::last_entry(table, entries_at(table, begin), row.c, row.d);
        }
    }
    g
}

// Kind k is an exception or a class.
pub fn is_record(k: usize) -> bool
    ensures { result ≡ is_record k }
{
    matches!(k, 13 | 14)
}

// A row of kind k takes member rows: a struct, an exception, a class, a parameter list.
pub fn owns(k: usize) -> bool
    ensures { result ≡ owns k }
{
    matches!(k, 9 | 13 | 14 | 15)
}

// The row of a member's type; 256, a row without a type tree, if there is no such member.
pub fn type_of_member(table: &[u8], begin: usize, m: usize) -> usize
    requires { begin ≡ types_at table.now }
    ensures { (ty_of table.now result ≡ member_ty table.now (trees table.now) m) × (result < 65536) }
{
    if m < members(table) {
        let first = members_at(table, begin);
        return member_row_from(table, first, m).of;
    }
    256
}
