ghost use Rattle.std.specs.Prelude.{◌<◌, ◌≤◌, length};
ghost use Rattle.build.specs.Builds.{Ready, Made};
ghost use Rattle.memo.specs.Results.{Knows};
ghost use Rattle.apply.specs.Joins.{goal, Joinable};
ghost use Rattle.apply.specs.Splits.{edge_of};
ghost use Rattle.lent.specs.Kids.{KidsBuilt};

use apply::split::{TimedEdge, skip, split};
use build::make::make;
use build::reach::{node_at, raise};
use memo::results::{recall, remember};
use nodes::edge::{Edge, NEVER};
use nodes::node::Node;
use nodes::remembered::{Key, Op, Operation, Remembered};

/// The edge whose chart joins those of two edges entry by entry, or none where no slot is free for one of its parts.
///
/// The devices from `level` on remain, fewer at each call. Every node that is interned is a part of the result.
#[cycle(joins)]
pub(crate) fn join(
    op: Op,
    nodes: &mut [Option<Node>],
    memo: &mut [Option<Remembered>],
    settings: &[u8],
    level: usize,
    a: Edge,
    b: Edge,
) -> Option<Edge>
    requires depth { level ≤ length settings.now }
    requires ready { Ready nodes.old settings.now }
    requires knows { Knows nodes.old settings.now memo.old }
    requires joinable { Joinable op nodes.old settings.now level a b }
    ensures made { Made nodes.old nodes.new settings.now level (goal op nodes.old settings.now level a b) result }
    ensures knows { Knows nodes.new settings.now memo.new }
{
    let Some(weight_a) = a.weight else {
        return Some(skip(op, a, b));
    };
    let Some(weight_b) = b.weight else {
        return Some(skip(op, b, a));
    };
    let weights = split(op, weight_a, weight_b);
    // where no device remains the child is 0, as in every edge to the terminal
    let left = Edge {
        weight: Some(weights.base),
        child: a.child,
    };
    if level == settings.len() {
        return Some(left);
    }
    if op == Op::Cheaper && a.child == b.child {
        return Some(left);
    }
    let x = TimedEdge {
        weight: weights.left,
        child: a.child,
    };
    let y = TimedEdge {
        weight: weights.right,
        child: b.child,
    };
    let rest = join_nodes(op, nodes, memo, settings, level, x, y)?;
    Some(raise(rest, weights.base))
}

/// The edge for two edges with times that lead to nodes, which is looked up, or built and then remembered; none where no
/// slot is free for one of its parts.
#[cycle(joins)]
fn join_nodes(
    op: Op,
    nodes: &mut [Option<Node>],
    memo: &mut [Option<Remembered>],
    settings: &[u8],
    level: usize,
    x: TimedEdge,
    y: TimedEdge,
) -> Option<Edge>
    requires depth { level < length settings.now }
    requires ready { Ready nodes.old settings.now }
    requires knows { Knows nodes.old settings.now memo.old }
    requires joinable { Joinable op nodes.old settings.now level (edge_of x) (edge_of y) }
    ensures made { Made nodes.old nodes.new settings.now level (goal op nodes.old settings.now level (edge_of x) (edge_of y)) result }
    ensures knows { Knows nodes.new settings.now memo.new }
{
    let key = Key {
        operation: Operation::Join(op),
        // a shape has at most 12 devices
        level: level as u8,
        left: Edge::from(x),
        right: Edge::from(y),
    };
    if let Some(known) = recall(memo, &key) {
        return Some(known);
    }
    let kids = join_kids(op, nodes, memo, settings, level, x, y)?;
    let result = make(nodes, settings, level, kids)?;
    remember(memo, Remembered { key, result });
    Some(result)
}

/// The edges for the settings of the level's device, or none where no slot is free for a part of one of them.
#[cycle(joins)]
fn join_kids(
    op: Op,
    nodes: &mut [Option<Node>],
    memo: &mut [Option<Remembered>],
    settings: &[u8],
    level: usize,
    x: TimedEdge,
    y: TimedEdge,
) -> Option<[Edge; 8]>
    requires depth { level < length settings.now }
    requires ready { Ready nodes.old settings.now }
    requires knows { Knows nodes.old settings.now memo.old }
    requires joinable { Joinable op nodes.old settings.now level (edge_of x) (edge_of y) }
    ensures built { KidsBuilt nodes.old nodes.new settings.now level (goal op nodes.old settings.now level (edge_of x) (edge_of y)) result }
    ensures knows { Knows nodes.new settings.now memo.new }
{
    let node_x = node_at(nodes, x.child);
    let node_y = node_at(nodes, y.child);
    let count = usize::from(settings[level]);
    let pairs = node_x.edges[..count].iter().zip(&node_y.edges[..count]);
    // By a loop: `array::try_from_fn` says nothing of the slots that its calls leave.
    let mut kids = [NEVER; 8];
    for (i, (a, b)) in pairs.enumerate() {
        let left = raise(*a, x.weight);
        let right = raise(*b, y.weight);
        kids[i] = join(op, nodes, memo, settings, level + 1, left, right)?;
    }
    Some(kids)
}
