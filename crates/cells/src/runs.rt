ghost use Rattle.std.specs.Prelude.{◌+◌, ◌*◌, ◌<◌, ◌≤◌, length, None, slice_index_or};
ghost use Rattle.model.specs.Limits.{most_settings};
ghost use Rattle.cells.specs.Writes.{Apart, Runs, Blocks, Source};

use lists::limits::MOST_SETTINGS;

// Rows lie in one slice, and a put reads one of them and writes it or another, so rows and runs are named by the cell
// at which they begin, and runs are copied within the slice. In `dial_block` two loops without indices were tried, one
// over `chunks_exact_mut` and one that goes on with what `split_at_mut` leaves: after either, no fact is left that says
// what the block holds, and the check stops there.

/// How a row falls into blocks, each with a run of cells for each setting of one device.
#[derive(Clone, Copy)]
pub struct Strides {
    pub blocks: usize,
    pub count: usize,
    pub stride: usize,
}

/// Writes each entry into its run of a block.
fn dial_block(block: &mut [Option<u64>], stride: usize, entries: &[Option<u64>])
    requires within { length entries.now * stride ≤ length block.old }
    ensures runs { Runs (length entries.now) stride 0 (λ d _. slice_index_or entries.now d None) block.old block.new }
{
    for (d, entry) in entries.iter().enumerate() {
        block[d * stride..(d + 1) * stride].fill(*entry);
    }
}

/// Writes each setting's entry into its runs of a row: into those of the first block, which is copied to the others.
pub fn dial_row(
    cells: &mut [Option<u64>],
    base: usize,
    strides: Strides,
    entries: &[Option<u64>; MOST_SETTINGS],
)
    requires some { 0 < strides.blocks }
    requires within { base + strides.blocks * (strides.count * strides.stride) ≤ length cells.old }
    requires few { strides.count ≤ most_settings }
    ensures blocks { Blocks strides.blocks strides.count strides.stride base (λ _ d _. slice_index_or entries.now d None) cells.old cells.new }
{
    let block = strides.count * strides.stride;
    dial_block(
        &mut cells[base..base + block],
        strides.stride,
        &entries[..strides.count],
    );
    spread_run(cells, base + block, base, strides.blocks - 1, block);
}

/// Copies one run to each of `count` runs, of `width` cells each.
fn spread_run(cells: &mut [Option<u64>], to: usize, from: usize, count: usize, width: usize)
    requires within { (to + count * width ≤ length cells.old) × (from + width ≤ length cells.old) }
    requires source { Source count width to from }
    ensures runs { Runs count width to (λ _ r. slice_index_or cells.old (from + r) None) cells.old cells.new }
{
    for x in 0..count {
        cells.copy_within(from..from + width, to + x * width);
    }
}

/// Gives each run of a row what the source row has at one setting, which may be the same row.
pub fn put_row(cells: &mut [Option<u64>], to: usize, from: usize, strides: Strides, setting: usize)
    requires some { 0 < strides.blocks }
    requires within { (to + strides.blocks * (strides.count * strides.stride) ≤ length cells.old) × (from + strides.blocks * (strides.count * strides.stride) ≤ length cells.old) }
    requires apart { Apart (strides.blocks * (strides.count * strides.stride)) from to }
    requires low { setting < strides.count }
    ensures blocks { Blocks strides.blocks strides.count strides.stride to (λ b _ r. slice_index_or cells.old (from + (b * (strides.count * strides.stride) + (setting * strides.stride + r))) None) cells.old cells.new }
{
    let block = strides.count * strides.stride;
    for b in 0..strides.blocks {
        spread_run(
            cells,
            to + b * block,
            from + (b * block + setting * strides.stride),
            strides.count,
            strides.stride,
        );
    }
}
