ghost use Rattle.std.specs.Prelude.{ℕ, ◌<◌, ◌≤◌, length, slice_index};
ghost use Rattle.table.specs.Tables.{Empty};
ghost use Rattle.memo.specs.Results.{Knows};
ghost use Rattle.lent.specs.Held.{Held};

use nodes::edge::Edge;
use nodes::node::Node;
use nodes::remembered::Remembered;
use table::slots::clear;

/// Makes every peg bare.
fn wipe(pegs: &mut [Option<Edge>])
    ensures { Empty pegs.new }
{
    pegs.fill(None);
}

/// Makes lent slots ready for a first chart over devices with these numbers of settings: no slot holds a node, no result is
/// remembered, and every peg is bare.
pub fn open(
    nodes: &mut [Option<Node>],
    memo: &mut [Option<Remembered>],
    settings: &[u8],
    pegs: &mut [Option<Edge>],
)
    requires some { (k : ℕ) → k < length settings.now → 1 ≤ slice_index settings.now k }
    requires few { (k : ℕ) → slice_index settings.now k ≤ 8 }
    requires short { length settings.now ≤ 12 }
    requires small { length nodes.old ≤ 65536 }
    ensures free { Empty nodes.new }
    ensures forgotten { Empty memo.new }
    ensures bare { Empty pegs.new }
    ensures held { Held nodes.new settings.now pegs.new }
    ensures knows { Knows nodes.new settings.now memo.new }
{
    clear(nodes);
    clear(memo);
    wipe(pegs);
}
