// Rows looked for, and a row as the number that a difference holds.
ghost use Rattle.std.specs.Prelude.{◌≡◌, ℕ, Bool, ◌-◌, ◌≤◌, ◌<◌};
ghost use Rattle.encoding.specs.Table.{range, search as find};
ghost use Rattle.differences.specs.Compare.{row_or_none};
ghost use Rattle.ordering.specs.Ordering.{Tests, row_number};

// A row + 1, or 0 for none.
pub fn number(row: Option<usize>) -> usize
    requires { row_number row < 4294967296 }
    ensures { result ≡ row_number row }
{
    match row {
        Some(r) => r + 1,
        None => 0,
    }
}

// The first row from row m on that passes, if there is one before `end`. Whatever test `passes` answers by, it is that test's row.
pub fn first<F: Fn(usize) -> bool>(m: usize, end: usize, passes: F) -> Option<usize>
    requires can { (i : ℕ) → i < end → F.pre passes i }
    ensures row { (f : ℕ → Bool) → Tests (F.post passes) f end → row_number result ≡ row_or_none (find f (range m (end - m))) }
    ensures upper_bound { row_number result ≤ end }
{
    for i in m..end {
        let passed = passes(i);
        if passed {
            return Some(i);
        }
    }
    None
}
