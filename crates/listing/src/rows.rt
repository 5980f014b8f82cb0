// Rows that pass a test, one after another.
ghost use Rattle.std.specs.Prelude.{◌≡◌, ℕ, Bool, ◌+◌, ◌≤◌, ◌<◌, ltb};
ghost use Rattle.ordering.specs.Ordering.{Tests, row_number};
ghost use Rattle.listing.specs.Listing.{follow_of};

// The first row after row a that passes, if there is one before `end`; none after no row.
pub fn following<F: Fn(usize) -> bool>(a: Option<usize>, end: usize, passes: F) -> Option<usize>
    requires can { (i : ℕ) → i < end → F.pre passes i }
    requires a_bound { row_number a < 4294967296 }
    ensures row { (f : ℕ → Bool) → Tests (F.post passes) f end → row_number result ≡ follow_of f (row_number a) end }
    ensures upper_bound { row_number result ≤ end }
{
    match a {
        Some(r) => ordering::rows::first(r + 1, end, passes),
        None => None,
    }
}

// There is one row or the other.
pub fn is_any(a: Option<usize>, b: Option<usize>) -> bool
    ensures { result ≡ ltb 0 (row_number a + row_number b) }
{
    a.is_some() || b.is_some()
}
