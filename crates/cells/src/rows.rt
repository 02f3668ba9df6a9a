ghost use Rattle.std.specs.Prelude.{◌≡◌, ℕ, ◌+◌, ◌<◌, ◌≤◌, false, length, None, slice_index_or};
ghost use Rattle.model.specs.Charts.{late, greatest as greatest_of, same_chart};
ghost use Rattle.model.specs.Lists.{some};
ghost use Rattle.cells.specs.Writes.{Apart, Written};

use crate::joins::Join;
use times::is_late;

/// Joins two rows of `n` cells into a third, which may be one of them.
// The three rows lie in one slice and two of them may be the same, so they are read and written by index.
pub fn join_rows<J: Join>(
    cells: &mut [Option<u64>],
    n: usize,
    base: usize,
    left: usize,
    right: usize,
)
    requires within { (base + n ≤ length cells.old) × ((left + n ≤ length cells.old) × (right + n ≤ length cells.old)) }
    requires apart { (Apart n left base) × (Apart n right base) }
    requires timely { (k : ℕ) → k < n → late (J.Join.joins (slice_index_or cells.old (left + k) None) (slice_index_or cells.old (right + k) None)) ≡ false }
    ensures row { Written n base (λ k. J.Join.joins (slice_index_or cells.old (left + k) None) (slice_index_or cells.old (right + k) None)) cells.old cells.new }
{
    for i in 0..n {
        cells[base + i] = J::join(cells[left + i], cells[right + i]);
    }
}

/// The greatest time of a row, if there is one.
pub fn greatest(row: &[Option<u64>]) -> Option<u64>
    ensures value { result ≡ greatest_of row.now }
{
    row.iter().copied().max().flatten()
}

/// Whether two rows are the same.
pub fn same_rows(left: &[Option<u64>], right: &[Option<u64>]) -> bool
    ensures value { result ≡ same_chart left.now right.now }
{
    left == right
}

/// Whether some entry is above the greatest time that a chart may have.
pub fn some_late(entries: &[Option<u64>]) -> bool
    ensures value { result ≡ some late entries.now }
{
    entries.iter().any(|time| is_late(*time))
}
