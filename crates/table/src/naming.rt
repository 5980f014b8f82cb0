// The names of records.
ghost use Rattle.std.specs.Prelude.{◌≡◌, ◌+◌, ◌≤◌, ◌<◌, length};
ghost use Rattle.encoding.specs.Result.{same_bytes};
ghost use Rattle.encoding.specs.Table.{types_at, names_at, name_of, named};
ghost use Rattle.table.specs.Found.{found_of};
ghost use Rattle.table.specs.Names.{name_start, is_named};
ghost use Rattle.table.specs.Rows.{IsTypeRow};

use crate::TypeRow;

// Where the name of row t begins, or the table's end if it begins past it. The names begin at `labels`.
pub fn start_of(table: &[u8], labels: usize, row: TypeRow, t: usize) -> usize
    requires labels_value { (labels ≡ names_at table.now) × (labels < 2097152) }
    requires type_row { IsTypeRow table.now t row }
    ensures { (result ≡ name_start table.now t) × (result ≤ length table.now) }
{
    (labels + row.d).min(table.len())
}

// How many bytes of row t's name, which begins at `start`, lie within the table.
pub fn length_of(table: &[u8], start: usize, row: TypeRow, t: usize) -> usize
    requires start_value { (start ≡ name_start table.now t) × (start ≤ length table.now) }
    requires type_row { IsTypeRow table.now t row }
    ensures { (result ≡ length (name_of table.now t)) × (name_start table.now t + result ≤ length table.now) × (result < 65536) }
{
    row.e.min(table.len() - start)
}

// Where the name of row t begins, of a row that is looked up. Here and below, `begin` is where the type rows begin.
pub fn name_start(table: &[u8], begin: usize, t: usize) -> usize
    requires { begin ≡ types_at table.now }
    ensures { (result ≡ name_start table.now t) × (result ≤ length table.now) }
{
    let labels = crate::names_at(table, begin);
    start_of(table, labels, crate::type_row(table, begin, t), t)
}

// How many bytes of row t's name lie within the table.
pub fn name_length(table: &[u8], begin: usize, t: usize) -> usize
    requires { begin ≡ types_at table.now }
    ensures { (result ≡ length (name_of table.now t)) × (name_start table.now t + result ≤ length table.now) × (result < 65536) }
{
    let labels = crate::names_at(table, begin);
    let row = crate::type_row(table, begin, t);
    length_of(table, start_of(table, labels, row, t), row, t)
}

// Two strings have the same bytes, by the library.
fn are_equal(a: &[u8], b: &[u8]) -> bool
    ensures { result ≡ same_bytes a.now b.now }
{
    a == b
}

// Two strings have the same bytes. Eight bytes are compared at a time, the last eight once more; strings of fewer than eight, by the library.
// Stays: `==` tests the first four bytes one by one and calls for the rest; by it the check of 100 classes whose names of 12 to 24 bytes differ at the end alone takes 1.2 to 1.4 times the instructions.
pub fn same(a: &[u8], b: &[u8]) -> bool
    ensures { result ≡ same_bytes a.now b.now }
{
    let n = a.len();
    if n != b.len() {
        return false;
    }
    if n < 8 {
        return are_equal(a, b);
    }
    for k in 0..n / 8 {
        if wire::long_in(a, 8 * k) != wire::long_in(b, 8 * k) {
            return false;
        }
    }
    wire::long_in(a, n - 8) == wire::long_in(b, n - 8)
}

// The name of row t is this one, of any row. Never inlined, so that `is_named` saves no registers; it is lent new parts, so that where and how long are passed in registers.
#[inline(never)]
fn is_named_anywhere(table: &[u8], begin: usize, t: usize, name: &[u8]) -> bool
    requires { begin ≡ types_at table.now }
    ensures { result ≡ same_bytes name.now (name_of table.now t) }
{
    let labels = crate::names_at(table, begin);
    let row = crate::type_row(table, begin, t);
    let a = start_of(table, labels, row, t);
    let e = a + length_of(table, a, row, t);
    same(name, &table[a..e])
}

// The name of row t is this one. A row that is not wholly inside the table is left to `is_named_anywhere`.
pub fn is_named(table: &[u8], begin: usize, t: usize, name: &[u8]) -> bool
    requires { begin ≡ types_at table.now }
    ensures { result ≡ same_bytes name.now (name_of table.now t) }
{
    if 65536 <= t || table.len() < crate::row_at(table, begin, t + 1) {
        return is_named_anywhere(&table[0..], begin, t, &name[0..]);
    }
    let labels = crate::names_at_in(table, begin);
    let row = crate::type_row_in(table, begin, t);
    let a = start_of(table, labels, row, t);
    let e = a + length_of(table, a, row, t);
    same(name, &table[a..e])
}

// Row t is a record of this name. Names of different lengths differ, so a row with a shorter name is passed without a look at its bytes.
pub fn is_record_named(table: &[u8], begin: usize, t: usize, name: &[u8]) -> bool
    requires { begin ≡ types_at table.now }
    ensures { result ≡ is_named table.now name.now t }
{
    crate::is_record(crate::kind(table, begin, t))
        && name.len() <= crate::field(table, begin, t, 4)
        && is_named(table, begin, t, name)
}

// The record with this name.
pub fn named(table: &[u8], name: &[u8]) -> Option<usize>
    ensures { result ≡ found_of (named table.now name.now) }
{
    let begin = crate::types_at(table);
    (0..crate::types(table)).find(|t| is_record_named(table, begin, *t, name))
}
