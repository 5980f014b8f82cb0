// The check of a table: header, type rows, lists of allowed enumerators, member sum, member rows. It refuses the first broken rule by its class (31 to 39) and its place.
// A function that judges one row answers the class of the first rule that the row breaks; the passes know the row's place.
#![tactic(auto)]

ghost use Rattle.std.specs.Prelude.{◌≡◌, true, map, ◌+◌, ◌-◌, ◌≤◌, ◌<◌, max, length};
ghost use Rattle.encoding.specs.Utf8.{is_utf8};
ghost use Rattle.encoding.specs.Table.{any, range, with_lists, types, members, types_at, row_at, members_at, member_at, names_at, name_of, entries_at, list_entry, header_rules, used, no_part, rises_to, faults};
ghost use Rattle.table.specs.Names.{is_named};
ghost use Rattle.table.specs.Rows.{IsTypeRow};
ghost use Rattle.rules.specs.Checks.{finding_of, broken_of, placed, is_marked, is_set_from, no_base_of, alike_from, enum_rules, struct_rules, seq_rules, dict_rules, record_rules, list_rules, kind_rules, row_rules, share, is_basic, past, allowed_rules_by, entry_count, allowed_pass, rows_pass, is_optional_of, is_tag_before, is_tag_alike, required_rules, optional_rules, member_rules_by, is_usual, owner_pass, owners_pass, MembersThere, OwnersThere};

use table::{MemberRow, TypeRow};
use wire::Refusal;

// The most bytes that a record's name may have.
const LONGEST_NAME: usize = 255;

// A broken rule, which is known by its class, at its place.
#[tactic(auto, unfolding(crate::specs::Checks::placed))]
fn placed(place: usize, answer: Result<(), usize>) -> Result<(), Refusal>
    ensures { result ≡ placed place answer }
{
    match answer {
        Ok(()) => Ok(()),
        Err(number) => Err(Refusal { number, place }),
    }
}

// The table begins with the mark FGT and version 1 or 2: four bytes, compared as one int, then a 0.
fn is_marked(table: &[u8]) -> bool
    requires { 5 ≤ length table.now }
    ensures { result ≡ is_marked table.now }
{
    let x = wire::int_at(table, 0);
    if x != 22300486 {
        if x != 39077702 {
            return false;
        }
    }
    wire::byte_at(table, 4) == 0
}

// The rules of the header, which are all of class 31.
pub fn header(table: &[u8], begin: usize) -> Result<(), usize>
    requires { begin ≡ types_at table.now }
    ensures { placed 0 result ≡ finding_of (header_rules table.now) }
{
    if table.len() < begin {
        return Err(31);
    }
    if !is_marked(table) {
        return Err(31);
    }
    let t = table::types(table);
    if t == 0 {
        return Err(31);
    }
    if 256 < t {
        return Err(31);
    }
    let m = table::members(table);
    if 1024 < m {
        return Err(31);
    }
    let n = table::names(table);
    if 8192 < n {
        return Err(31);
    }
    if wire::byte_at(table, 11) != 0 {
        return Err(31);
    }
    let e = table::entries(table, begin);
    if 1024 < e {
        return Err(31);
    }
    let first = table::row_at(table, begin, t);
    if table.len() != table::member_at(table, first, m) + n + 4 * e {
        return Err(31);
    }
    Ok(())
}

// One of the fields of a row, from field i on (a is field 0, e is 4), is not 0.
pub fn is_set_from(row: TypeRow, i: usize) -> bool
    ensures { result ≡ is_set_from row i }
{
    ((i == 0) & (row.a != 0))
        | ((i <= 1) & (row.b != 0))
        | ((i <= 2) & (row.c != 0))
        | ((i <= 3) & (row.d != 0))
        | ((i <= 4) & (row.e != 0))
}

// How many fields, from a on, rows of kind k use in this table: the c and d of an enum are its list. A kind above 15 counts as one that uses all.
fn used(table: &[u8], begin: usize, k: usize) -> usize
    requires { begin ≡ types_at table.now }
    ensures { result ≡ used table.now k }
{
    if k < 8 {
        return 0;
    }
    match k {
        8 => if table::with_lists(table, begin) {
            4
        } else {
            2
        },
        9 => 2,
        10 => 1,
        11 => 2,
        12 => 0,
        15 => 2,
        _ => 5,
    }
}

// A field that the row's kind does not use in this table is not 0. Rows that use none, one or two are asked by a constant, so that none of these is asked for a field that it uses.
fn is_unused_set(table: &[u8], begin: usize, row: TypeRow) -> bool
    requires { begin ≡ types_at table.now }
    ensures { result ≡ is_set_from row (used table.now row.kind) }
{
    match used(table, begin, row.kind) {
        0 => is_set_from(row, 0),
        1 => is_set_from(row, 1),
        2 => is_set_from(row, 2),
        n => n < 5 && is_set_from(row, n),
    }
}

// Row r cannot be a part of row t: it is not below t, or not of kinds 0 to 12. The rows below t lie inside the table.
pub fn no_part(table: &[u8], begin: usize, t: usize, r: usize) -> bool
    requires begin_value { begin ≡ types_at table.now }
    requires t_in_bounds { row_at table.now t ≤ length table.now }
    ensures { result ≡ no_part table.now t r }
{
    if t <= r {
        return true;
    }
    12 < table::kind_in(table, begin, r)
}

// Row b - 1 cannot be the base of row t of kind k: it is not below t, or of another kind. With b = 0 there is no base to judge.
pub fn no_base(table: &[u8], begin: usize, t: usize, k: usize, b: usize) -> bool
    requires begin_value { begin ≡ types_at table.now }
    requires t_in_bounds { row_at table.now t ≤ length table.now }
    ensures { result ≡ no_base_of table.now t k b }
{
    if b == 0 {
        return false;
    }
    if t < b {
        return true;
    }
    table::kind_in(table, begin, b - 1) != k
}

// A record among rows `from` to t - 1 has this name. Names of different lengths differ, so a row with a shorter name is passed without a look at its bytes.
// Never inlined, so that the numbers of its loop stay in registers.
#[inline(never)]
fn is_name_before(table: &[u8], begin: usize, name: &[u8], from: usize, t: usize) -> bool
    requires begin_value { begin ≡ types_at table.now }
    requires t_in_bounds { row_at table.now t ≤ length table.now }
    ensures { result ≡ any (is_named table.now name.now) (range from (t - from)) }
{
    for r in from..t {
        let row = table::type_row_in(table, begin, r);
        if table::is_record(row.kind) {
            if name.len() <= row.e {
                if table::naming::is_named(table, begin, r, name) {
                    return true;
                }
            }
        }
    }
    false
}

// A record among rows `from` to t - 1 has the name of row t. The names begin at `labels`.
#[inline(always)]
pub fn alike(table: &[u8], begin: usize, labels: usize, t: usize, row: TypeRow, from: usize) -> bool
    requires begin_value { begin ≡ types_at table.now }
    requires labels_value { (labels ≡ names_at table.now) × (labels < 2097152) }
    requires t_in_bounds { row_at table.now t ≤ length table.now }
    requires type_row { IsTypeRow table.now t row }
    ensures { result ≡ alike_from table.now from t }
{
    if t <= from {
        return false;
    }
    let a = table::naming::start_of(table, labels, row, t);
    let e = a + table::naming::length_of(table, a, row, t);
    is_name_before(table, begin, &table[a..e], from, t)
}

// The name of row t is text. The names begin at `labels`.
#[inline(always)]
pub fn is_name_text(table: &[u8], labels: usize, t: usize, row: TypeRow) -> bool
    requires labels_value { (labels ≡ names_at table.now) × (labels < 2097152) }
    requires type_row { IsTypeRow table.now t row }
    ensures { result ≡ is_utf8 (name_of table.now t) }
{
    let a = table::naming::start_of(table, labels, row, t);
    let e = a + table::naming::length_of(table, a, row, t);
    text::is_utf8(table, a, e)
}

// The rule of an enum.
fn enum_row(row: TypeRow) -> Result<(), usize>
    requires { (row.a < 65536) × (row.b < 65536) }
    ensures { result ≡ broken_of (enum_rules row) }
{
    if 2147483648 <= table::greatest(row) {
        return Err(38);
    }
    Ok(())
}

// The rules of a struct; the rows before it take `prior` member rows.
fn struct_row(row: TypeRow, prior: usize) -> Result<(), usize>
    ensures { result ≡ broken_of (struct_rules row prior) }
{
    if row.a != prior {
        return Err(35);
    }
    if row.b == 0 {
        return Err(36);
    }
    Ok(())
}

// The rule of a sequence, row t.
fn seq_row(table: &[u8], begin: usize, t: usize, row: TypeRow) -> Result<(), usize>
    requires begin_value { begin ≡ types_at table.now }
    requires t_in_bounds { row_at table.now t ≤ length table.now }
    ensures { result ≡ broken_of (seq_rules table.now t row) }
{
    if no_part(table, begin, t, row.a) {
        return Err(34);
    }
    Ok(())
}

// The rules of a dictionary, row t.
fn dict_row(table: &[u8], begin: usize, t: usize, row: TypeRow) -> Result<(), usize>
    requires begin_value { begin ≡ types_at table.now }
    requires t_in_bounds { row_at table.now t ≤ length table.now }
    ensures { result ≡ broken_of (dict_rules table.now t row) }
{
    if no_part(table, begin, t, row.a) {
        return Err(34);
    }
    if no_part(table, begin, t, row.b) {
        return Err(34);
    }
    Ok(())
}

// The rules of an exception or a class, row t; its name is compared with those of records from row `from` on.
// Always inlined: it is called at two places, and as a call it passes the row through memory.
#[inline(always)]
pub fn record_row(
    table: &[u8],
    begin: usize,
    labels: usize,
    t: usize,
    row: TypeRow,
    prior: usize,
    from: usize,
) -> Result<(), usize>
    requires begin_value { begin ≡ types_at table.now }
    requires labels_value { (labels ≡ names_at table.now) × (labels < 2097152) }
    requires t_in_bounds { row_at table.now t ≤ length table.now }
    requires type_row { IsTypeRow table.now t row }
    ensures { result ≡ broken_of (record_rules table.now t row prior (alike_from table.now from t)) }
{
    if no_base(table, begin, t, row.kind, row.c) {
        return Err(34);
    }
    if row.a != prior {
        return Err(35);
    }
    if row.e == 0 {
        return Err(37);
    }
    if LONGEST_NAME < row.e {
        return Err(37);
    }
    if table::names(table) < row.d + row.e {
        return Err(37);
    }
    if alike(table, begin, labels, t, row, from) {
        return Err(37);
    }
    if is_name_text(table, labels, t, row) {
        return Ok(());
    }
    Err(37)
}

// The rule of a parameter list.
fn list_row(row: TypeRow, prior: usize) -> Result<(), usize>
    ensures { result ≡ broken_of (list_rules row prior) }
{
    if row.a != prior {
        return Err(35);
    }
    Ok(())
}

// The rules that the kind of row t has.
fn kind_row(
    table: &[u8],
    begin: usize,
    labels: usize,
    t: usize,
    row: TypeRow,
    prior: usize,
    from: usize,
) -> Result<(), usize>
    requires begin_value { begin ≡ types_at table.now }
    requires labels_value { (labels ≡ names_at table.now) × (labels < 2097152) }
    requires t_in_bounds { row_at table.now t ≤ length table.now }
    requires type_row { IsTypeRow table.now t row }
    ensures { result ≡ broken_of (kind_rules table.now t row prior (alike_from table.now from t)) }
{
    let k = row.kind;
    if k == 8 {
        return enum_row(row);
    }
    if k == 9 {
        return struct_row(row, prior);
    }
    if k == 10 {
        return seq_row(table, begin, t, row);
    }
    if k == 11 {
        return dict_row(table, begin, t, row);
    }
    if table::is_record(k) {
        return record_row(table, begin, labels, t, row, prior, from);
    }
    if k == 15 {
        return list_row(row, prior);
    }
    Ok(())
}

// The rules of type row t.
fn type_class(
    table: &[u8],
    begin: usize,
    labels: usize,
    t: usize,
    row: TypeRow,
    prior: usize,
    from: usize,
) -> Result<(), usize>
    requires begin_value { begin ≡ types_at table.now }
    requires labels_value { (labels ≡ names_at table.now) × (labels < 2097152) }
    requires t_in_bounds { row_at table.now t ≤ length table.now }
    requires type_row { IsTypeRow table.now t row }
    ensures { result ≡ broken_of (row_rules table.now t row prior (alike_from table.now from t)) }
{
    if row.spare != 0 {
        return Err(32);
    }
    if is_unused_set(table, begin, row) {
        return Err(32);
    }
    if 15 < row.kind {
        return Err(33);
    }
    kind_row(table, begin, labels, t, row, prior, from)
}

// How many member rows a row takes.
pub fn share(row: TypeRow) -> usize
    ensures { (result ≡ share row) × (result ≤ row.b) }
{
    if table::owns(row.kind) {
        return row.b;
    }
    0
}

// Type row t is basic: its kind is below 8 and every other byte is 0.
pub fn is_basic(table: &[u8], begin: usize, t: usize) -> bool
    requires begin_value { begin ≡ types_at table.now }
    requires t_in_bounds { row_at table.now (t + 1) ≤ length table.now }
    ensures { result ≡ is_basic table.now t }
{
    let start = table::row_at(table, begin, t);
    let end = table::row_at(table, begin, t + 1);
    let row = &table[start..end];
    if wire::int_at(row, 0) < 8 {
        return wire::long_at(row, 4) == 0;
    }
    false
}

// Advances `from`, the first row that may be a record, past row t if t is not one (`plain`).
pub fn past(from: usize, t: usize, plain: bool) -> usize
    requires { t < 65536 }
    ensures { result ≡ past from t plain }
{
    if from == t {
        if plain {
            return t + 1;
        }
    }
    from
}

// The list of d entries from entry c on rises to g: it has an entry, each is above the one before, and the last is g. The entries begin at `first`.
fn rises_to(table: &[u8], first: usize, c: usize, d: usize, g: usize) -> bool
    requires first_value { (first ≡ entries_at table.now) × (first < 4194304) }
    requires c_bound { (c < 65536) × (d < 65536) }
    ensures { result ≡ rises_to g (map (list_entry table.now) (range c d)) }
{
    if d == 0 {
        return false;
    }
    let mut last = table::allowed::list_entry(table, first, c);
    for i in 1..d {
        let x = table::allowed::list_entry(table, first, c + i);
        if x <= last {
            return false;
        }
        last = x;
    }
    last == g
}

// The rules of the list of a row, if it is an enum; the lists before it take `prior` of `all` entries, which begin at `first`.
fn allowed_row(
    table: &[u8],
    first: usize,
    all: usize,
    row: TypeRow,
    prior: usize,
) -> Result<(), usize>
    requires first_value { (first ≡ entries_at table.now) × (first < 4194304) }
    requires a_bound { (row.a < 65536) × (row.b < 65536) × (row.c < 65536) × (row.d < 65536) }
    ensures { result ≡ broken_of (allowed_rules_by table.now all row prior) }
{
    if row.kind != 8 {
        return Ok(());
    }
    if row.c != prior {
        return Err(39);
    }
    if all < row.c + row.d {
        return Err(39);
    }
    if !rises_to(table, first, row.c, row.d, table::greatest(row)) {
        return Err(39);
    }
    Ok(())
}

// How many entries the list of a row has.
fn entry_count(row: TypeRow) -> usize
    ensures { (result ≡ entry_count row) × (result ≤ row.d) }
{
    if row.kind == 8 {
        return row.d;
    }
    0
}

// The pass over the lists of the n type rows, then the entries left over, in a table that has lists.
fn allowed_rows(table: &[u8], begin: usize, n: usize) -> Result<(), Refusal>
    requires begin_value { begin ≡ types_at table.now }
    requires n_value { n ≡ types table.now }
    requires n_in_bounds { row_at table.now n ≤ length table.now }
    requires table_value { with_lists table.now ≡ true }
    ensures { result ≡ finding_of (allowed_pass table.now) }
{
    let first = table::entries_at(table, begin);
    let all = table::entries(table, begin);
    let mut prior = 0;
    for t in 0..n {
        let row = table::type_row_in(table, begin, t);
        placed(
            table::row_at(table, begin, t),
            allowed_row(table, first, all, row, prior),
        )?;
        prior += entry_count(row);
    }
    if prior != all {
        return Err(Refusal {
            number: 39,
            place: 0,
        });
    }
    Ok(())
}

// The pass over the lists, which a table of version 1 does not have.
fn allowed_pass(table: &[u8], begin: usize, n: usize) -> Result<(), Refusal>
    requires begin_value { begin ≡ types_at table.now }
    requires n_value { n ≡ types table.now }
    requires n_in_bounds { row_at table.now n ≤ length table.now }
    ensures { result ≡ finding_of (allowed_pass table.now) }
{
    if table::with_lists(table, begin) {
        return allowed_rows(table, begin, n);
    }
    Ok(())
}

// The pass over the n type rows, then the lists, then the member sum. A basic row breaks no rule and takes no member rows. No row before `from` is a record.
fn type_rows(table: &[u8], begin: usize, n: usize) -> Result<(), Refusal>
    requires begin_value { begin ≡ types_at table.now }
    requires n_value { n ≡ types table.now }
    requires n_in_bounds { row_at table.now n ≤ length table.now }
    ensures { result ≡ finding_of (rows_pass table.now) }
{
    let labels = table::names_at(table, begin);
    let mut prior = 0;
    let mut from = 0;
    for t in 0..n {
        if is_basic(table, begin, t) {
            from = past(from, t, true);
            continue;
        }
        let row = table::type_row_in(table, begin, t);
        placed(
            table::row_at(table, begin, t),
            type_class(table, begin, labels, t, row, prior, from),
        )?;
        prior += share(row);
        from = past(from, t, !table::is_record(row.kind));
    }
    allowed_pass(table, begin, n)?;
    if prior != table::members(table) {
        return Err(Refusal {
            number: 35,
            place: 0,
        });
    }
    Ok(())
}

// Member row i, which lies inside the table, is optional and has this tag. The member rows begin at `at`.
fn is_optional_of(table: &[u8], at: usize, i: usize, tag: usize) -> bool
    requires at_value { at ≡ members_at table.now }
    requires i_in_bounds { member_at table.now (i + 1) ≤ length table.now }
    ensures { result ≡ is_optional_of table.now tag i }
{
    let row = table::member_row_in(table, at, i);
    if row.mark == 1 {
        return row.tag == tag;
    }
    false
}

// A member row among `first` to m - 1, which lie inside the table, is optional and has this tag.
fn is_tag_before(table: &[u8], at: usize, first: usize, m: usize, tag: usize) -> bool
    requires at_value { at ≡ members_at table.now }
    requires m_in_bounds { member_at table.now m ≤ length table.now }
    ensures { result ≡ is_tag_before table.now first m tag }
{
    for i in first..m {
        if is_optional_of(table, at, i, tag) {
            return true;
        }
    }
    false
}

// The same, if every tag of these rows is below `above`: a tag that is not below it is new, so rising tags are not searched for.
fn is_tag_alike(table: &[u8], at: usize, first: usize, m: usize, above: usize, tag: usize) -> bool
    requires at_value { at ≡ members_at table.now }
    requires m_in_bounds { member_at table.now m ≤ length table.now }
    ensures { result ≡ is_tag_alike table.now first m above tag }
{
    if above <= tag {
        return false;
    }
    is_tag_before(table, at, first, m, tag)
}

// The rules of a required member of owner o.
fn required_row(table: &[u8], begin: usize, o: usize, row: MemberRow) -> Result<(), usize>
    requires begin_value { begin ≡ types_at table.now }
    requires o_in_bounds { row_at table.now o ≤ length table.now }
    ensures { result ≡ broken_of (required_rules table.now o row) }
{
    if row.tag != 0 {
        return Err(32);
    }
    if no_part(table, begin, o, row.of) {
        return Err(34);
    }
    Ok(())
}

// The rules of member row m of owner o if its mark is not 0.
fn optional_row(
    table: &[u8],
    begin: usize,
    at: usize,
    o: usize,
    owner: TypeRow,
    m: usize,
    row: MemberRow,
    above: usize,
) -> Result<(), usize>
    requires begin_value { begin ≡ types_at table.now }
    requires o_in_bounds { row_at table.now o ≤ length table.now }
    requires at_value { at ≡ members_at table.now }
    requires m_in_bounds { member_at table.now m ≤ length table.now }
    ensures { result ≡ broken_of (optional_rules table.now o owner row (is_tag_alike table.now owner.a m above row.tag)) }
{
    if no_part(table, begin, o, row.of) {
        return Err(34);
    }
    if 1 < row.mark {
        return Err(36);
    }
    if owner.kind == 9 {
        return Err(36);
    }
    if 2147483648 <= row.tag {
        return Err(38);
    }
    if is_tag_alike(table, at, owner.a, m, above, row.tag) {
        return Err(38);
    }
    Ok(())
}

// The rules of member row m of owner o.
fn member_class(
    table: &[u8],
    begin: usize,
    at: usize,
    o: usize,
    owner: TypeRow,
    m: usize,
    row: MemberRow,
    above: usize,
) -> Result<(), usize>
    requires begin_value { begin ≡ types_at table.now }
    requires o_in_bounds { row_at table.now o ≤ length table.now }
    requires at_value { at ≡ members_at table.now }
    requires m_in_bounds { member_at table.now m ≤ length table.now }
    ensures { result ≡ broken_of (member_rules_by table.now o owner row (is_tag_alike table.now owner.a m above row.tag)) }
{
    if row.spare != 0 {
        return Err(32);
    }
    if row.mark == 0 {
        return required_row(table, begin, o, row);
    }
    optional_row(table, begin, at, o, owner, m, row, above)
}

// The bound above the tags so far, raised above this tag too.
pub fn raised(above: usize, tag: usize) -> usize
    requires { tag < 4294967296 }
    ensures { result ≡ max above (tag + 1) }
{
    if above <= tag { tag + 1 } else { above }
}

// A member row, given as one number, is usual: required with tag 0, or optional, in no struct, with a tag not below `above`. Only its type is left to judge.
pub fn is_usual(x: usize, optional: bool, above: usize) -> bool
    ensures { result ≡ is_usual x optional above }
{
    if x < 65536 {
        return true;
    }
    if !optional {
        return false;
    }
    if x / 65536 % 65536 != 1 {
        return false;
    }
    let tag = x / 4294967296;
    if tag < above {
        return false;
    }
    tag < 2147483648
}

// The rules of the member rows of owner o, if they are all there, as they are once the member sum is right. The table has k member rows, from `first` on.
// The first loop judges usual rows, each as one number; from the first other row on, the second loop judges each row rule by rule. The tags before a row are below `above`.
fn owner(table: &[u8], begin: usize, o: usize, first: usize, k: usize) -> Result<(), Refusal>
    requires begin_value { begin ≡ types_at table.now }
    requires o_in_bounds { row_at table.now (o + 1) ≤ length table.now }
    requires first_value { (first ≡ members_at table.now) × (k ≡ members table.now) }
    requires k_in_bounds { member_at table.now k ≤ length table.now }
    ensures { MembersThere table.now o → result ≡ finding_of (owner_pass table.now o) }
{
    let own = table::type_row_in(table, begin, o);
    let count = share(own);
    if count == 0 {
        return Ok(());
    }
    let end = own.a + count;
    if k < end {
        return Err(Refusal {
            number: 35,
            place: 0,
        });
    }
    let mut other = own.a;
    let mut above = 0;
    let optional = own.kind != 9;
    for m in own.a..end {
        let place = table::member_at(table, first, m);
        let x = wire::long_in(table, place);
        if !is_usual(x, optional, above) {
            break;
        }
        if no_part(table, begin, o, x % 65536) {
            return Err(Refusal { number: 34, place });
        }
        above = raised(above, x / 4294967296);
        other = m + 1;
    }
    for m in other..end {
        let row = table::member_row_in(table, first, m);
        let judged = member_class(table, begin, first, o, own, m, row, above);
        placed(table::member_at(table, first, m), judged)?;
        above = raised(above, row.tag);
    }
    Ok(())
}

// The pass over the k member rows, owner by owner of the n type rows, if the member rows of each owner are all there. A row of kinds 0 to 8 takes none and is passed at once.
fn member_rows(table: &[u8], begin: usize, n: usize, k: usize) -> Result<(), Refusal>
    requires begin_value { begin ≡ types_at table.now }
    requires n_value { (n ≡ types table.now) × (k ≡ members table.now) }
    requires k_in_bounds { member_at table.now k ≤ length table.now }
    ensures { OwnersThere table.now → result ≡ finding_of (owners_pass table.now (range 0 (types table.now))) }
{
    let first = table::row_at(table, begin, n);
    for o in 0..n {
        if 9 <= table::kind_in(table, begin, o) {
            owner(table, begin, o, first, k)?;
        }
    }
    Ok(())
}

// The first rule that the table breaks.
pub fn check(table: &[u8]) -> Result<(), Refusal>
    ensures { result ≡ finding_of (faults table.now) }
{
    let begin = table::types_at(table);
    placed(0, header(table, begin))?;
    let n = table::types(table);
    type_rows(table, begin, n)?;
    member_rows(table, begin, n, table::members(table))
}
