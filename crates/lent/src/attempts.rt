ghost use Rattle.std.specs.Prelude.{◌≡◌, ◌<◌, length};
ghost use Rattle.build.specs.Builds.{Made};
ghost use Rattle.memo.specs.Results.{Knows};
ghost use Rattle.pegs.specs.Held.{pegs_of};
ghost use Rattle.hang.specs.Tasks.{Allowed, made};
ghost use Rattle.lent.specs.Held.{Held};
ghost use Rattle.lent.specs.Told.{Tried};

use crate::dialling::dial;
use crate::joins::join;
use crate::putting::put;
use hang::task::Task;
use nodes::edge::Edge;
use nodes::node::Node;
use nodes::remembered::{Op, Remembered};
use table::slots::taken;

/// The edge of two pegs joined.
fn join_pegs(
    op: Op,
    left: u8,
    right: u8,
    nodes: &mut [Option<Node>],
    memo: &mut [Option<Remembered>],
    settings: &[u8],
    pegs: &[Option<Edge>],
) -> Option<Edge>
    requires held { Held nodes.old settings.now pegs.now }
    requires knows { Knows nodes.old settings.now memo.old }
    requires allowed { Allowed settings.now (pegs_of nodes.old settings.now pegs.now) (Task.Join op left right) }
    ensures made { Made nodes.old nodes.new settings.now 0 (made settings.now (pegs_of nodes.old settings.now pegs.now) (Task.Join op left right)) result }
    ensures knows { Knows nodes.new settings.now memo.new }
{
    let x = taken(pegs, usize::from(left))?;
    let y = taken(pegs, usize::from(right))?;
    join(op, nodes, memo, settings, 0, x, y)
}

/// The edge of a peg once a device is at a setting.
fn put_peg(
    peg: u8,
    device: u8,
    setting: u8,
    nodes: &mut [Option<Node>],
    memo: &mut [Option<Remembered>],
    settings: &[u8],
    pegs: &[Option<Edge>],
) -> Option<Edge>
    requires held { Held nodes.old settings.now pegs.now }
    requires knows { Knows nodes.old settings.now memo.old }
    requires allowed { Allowed settings.now (pegs_of nodes.old settings.now pegs.now) (Task.Put peg device setting) }
    ensures made { Made nodes.old nodes.new settings.now 0 (made settings.now (pegs_of nodes.old settings.now pegs.now) (Task.Put peg device setting)) result }
    ensures knows { Knows nodes.new settings.now memo.new }
{
    let e = taken(pegs, usize::from(peg))?;
    put(nodes, memo, settings, 0, device, setting, e)
}

/// The edge of the chart to be hung, or none where no slot is free for one of its parts.
fn attempt(
    task: Task,
    nodes: &mut [Option<Node>],
    memo: &mut [Option<Remembered>],
    settings: &[u8],
    pegs: &[Option<Edge>],
) -> Option<Edge>
    requires held { Held nodes.old settings.now pegs.now }
    requires knows { Knows nodes.old settings.now memo.old }
    requires allowed { Allowed settings.now (pegs_of nodes.old settings.now pegs.now) task }
    ensures made { Made nodes.old nodes.new settings.now 0 (made settings.now (pegs_of nodes.old settings.now pegs.now) task) result }
    ensures knows { Knows nodes.new settings.now memo.new }
{
    match task {
        Task::Dial { device, entries } => dial(nodes, settings, 0, usize::from(device), &entries),
        Task::Join { op, left, right } => join_pegs(op, left, right, nodes, memo, settings, pegs),
        Task::Put {
            peg,
            device,
            setting,
        } => put_peg(peg, device, setting, nodes, memo, settings, pegs),
    }
}

/// Hangs the chart on a peg, unless no slot is free for one of its parts: then every peg is as it was.
pub fn try_to_hang(
    task: Task,
    nodes: &mut [Option<Node>],
    memo: &mut [Option<Remembered>],
    settings: &[u8],
    pegs: &mut [Option<Edge>],
    target: usize,
) -> bool
    requires held { Held nodes.old settings.now pegs.old }
    requires knows { Knows nodes.old settings.now memo.old }
    requires allowed { Allowed settings.now (pegs_of nodes.old settings.now pegs.old) task }
    requires target { target < length pegs.old }
    ensures held { Held nodes.new settings.now pegs.new }
    ensures knows { Knows nodes.new settings.now memo.new }
    ensures tried { Tried nodes.old settings.now (pegs_of nodes.old settings.now pegs.old) (pegs_of nodes.new settings.now pegs.new) (made settings.now (pegs_of nodes.old settings.now pegs.old) task) target result }
{
    let Some(e) = attempt(task, nodes, memo, settings, pegs) else {
        return false;
    };
    pegs[target] = Some(e);
    true
}
