ghost use Rattle.std.specs.Prelude.{◌≡◌, ◌<◌, length};
ghost use Rattle.model.specs.Shelves.{charts};
ghost use Rattle.store.specs.Fillings.{Owned};
ghost use Rattle.memo.specs.Results.{Knows};
ghost use Rattle.pegs.specs.Held.{pegs_of};
ghost use Rattle.hang.specs.Tasks.{Allowed, made};
ghost use Rattle.lent.specs.Held.{Held};
ghost use Rattle.lent.specs.Told.{Told};

use crate::attempts::try_to_hang;
use crate::sweeping::sweep;
use hang::task::Task;
use nodes::edge::Edge;
use nodes::node::Node;
use nodes::remembered::Remembered;
use table::slots::clear;

/// Keeps what the pegs reach and nothing else, and forgets remembered results.
fn collect(
    nodes: &mut [Option<Node>],
    spare: &mut [Option<Node>],
    moved: &mut [Option<u16>],
    memo: &mut [Option<Remembered>],
    settings: &[u8],
    pegs: &mut [Option<Edge>],
)
    requires held { Held nodes.old settings.now pegs.old }
    requires size { length spare.old ≡ length nodes.old }
    ensures held { Held nodes.new settings.now pegs.new }
    ensures knows { Knows nodes.new settings.now memo.new }
    ensures same { pegs_of nodes.new settings.now pegs.new ≡ pegs_of nodes.old settings.now pegs.old }
    ensures owned { Owned nodes.new settings.now (charts (pegs_of nodes.old settings.now pegs.old)) }
{
    sweep(nodes, spare, moved, settings, pegs);
    nodes.copy_from_slice(spare);
    clear(memo);
}

/// Hangs a chart on a peg. Where the slots are full they are collected, and the chart is tried once more; full again is no
/// room, and every peg is as it was.
pub fn hang(
    task: Task,
    nodes: &mut [Option<Node>],
    spare: &mut [Option<Node>],
    moved: &mut [Option<u16>],
    memo: &mut [Option<Remembered>],
    settings: &[u8],
    pegs: &mut [Option<Edge>],
    target: usize,
) -> bool
    requires held { Held nodes.old settings.now pegs.old }
    requires knows { Knows nodes.old settings.now memo.old }
    requires allowed { Allowed settings.now (pegs_of nodes.old settings.now pegs.old) task }
    requires target { target < length pegs.old }
    requires size { length spare.old ≡ length nodes.old }
    ensures held { Held nodes.new settings.now pegs.new }
    ensures knows { Knows nodes.new settings.now memo.new }
    ensures told { Told (length nodes.old) settings.now (pegs_of nodes.old settings.now pegs.old) (pegs_of nodes.new settings.now pegs.new) (made settings.now (pegs_of nodes.old settings.now pegs.old) task) target result }
{
    if try_to_hang(task, nodes, memo, settings, pegs, target) {
        return true;
    }
    collect(nodes, spare, moved, memo, settings, pegs);
    try_to_hang(task, nodes, memo, settings, pegs, target)
}
