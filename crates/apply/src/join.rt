ghost use Rattle.std.specs.Prelude.{◌<◌, ◌≤◌, length};
ghost use Rattle.build.specs.Grew.{nodes_in, shape_in, MadeIn};
ghost use Rattle.apply.specs.Joins.{goal, Joinable, KidsBuilt};
ghost use Rattle.apply.specs.Splits.{edge_of};

use crate::split::{TimedEdge, skip, split};
use build::reach::raise;
use memo::diagrams::Diagrams;
use nodes::edge::{Edge, NEVER};
use nodes::remembered::{Key, Op, Operation, Remembered};

/// The edge whose chart joins those of two edges entry by entry, or none where no slot is free for one of its parts.
///
/// The devices from `level` on remain, fewer at each call. Every node that is interned is a part of the result.
#[cycle(joins)]
pub fn join(diagrams: &mut Diagrams, op: Op, level: usize, a: Edge, b: Edge) -> Option<Edge>
    requires depth { level ≤ length (shape_in diagrams.old.store) }
    requires joinable { Joinable op (nodes_in diagrams.old.store) (shape_in diagrams.old.store) level a b }
    ensures { MadeIn diagrams.old.store diagrams.new.store level (goal op (nodes_in diagrams.old.store) (shape_in diagrams.old.store) level a b) result }
{
    let Some(weight_a) = a.weight else {
        return Some(skip(op, a, b));
    };
    let Some(weight_b) = b.weight else {
        return Some(skip(op, b, a));
    };
    let weights = split(op, weight_a, weight_b);
    // where no device remains the child is 0, as in every edge to the terminal
    let left = Edge {
        weight: Some(weights.base),
        child: a.child,
    };
    if level == diagrams.store.devices() {
        return Some(left);
    }
    if op == Op::Cheaper && a.child == b.child {
        return Some(left);
    }
    let x = TimedEdge {
        weight: weights.left,
        child: a.child,
    };
    let y = TimedEdge {
        weight: weights.right,
        child: b.child,
    };
    // a sum with a chart that is 0 throughout, as below every constant and every dial, is the other chart
    if op == Op::Sum && diagrams.store.is_zero(level, Edge::from(y)) {
        return Some(left);
    }
    if op == Op::Sum && diagrams.store.is_zero(level, Edge::from(x)) {
        return Some(Edge {
            child: b.child,
            ..left
        });
    }
    let rest = join_nodes(diagrams, op, level, x, y)?;
    Some(raise(rest, weights.base))
}

/// The edge for two edges with times that lead to nodes, which is looked up, or built and then remembered; none where no
/// slot is free for one of its parts.
#[cycle(joins)]
fn join_nodes(
    diagrams: &mut Diagrams,
    op: Op,
    level: usize,
    x: TimedEdge,
    y: TimedEdge,
) -> Option<Edge>
    requires depth { level < length (shape_in diagrams.old.store) }
    requires joinable { Joinable op (nodes_in diagrams.old.store) (shape_in diagrams.old.store) level (edge_of x) (edge_of y) }
    ensures { MadeIn diagrams.old.store diagrams.new.store level (goal op (nodes_in diagrams.old.store) (shape_in diagrams.old.store) level (edge_of x) (edge_of y)) result }
{
    let key = Key {
        operation: Operation::Join(op),
        // a shape has at most 12 devices
        level: level as u8,
        left: Edge::from(x),
        right: Edge::from(y),
    };
    if let Some(known) = diagrams.recall(&key) {
        return Some(known);
    }
    let kids = join_kids(diagrams, op, level, x, y)?;
    let result = diagrams.make(level, kids)?;
    diagrams.remember(Remembered { key, result });
    Some(result)
}

/// The edges for the settings of the level's device, or none where no slot is free for a part of one of them.
#[cycle(joins)]
fn join_kids(
    diagrams: &mut Diagrams,
    op: Op,
    level: usize,
    x: TimedEdge,
    y: TimedEdge,
) -> Option<[Edge; 8]>
    requires depth { level < length (shape_in diagrams.old.store) }
    requires joinable { Joinable op (nodes_in diagrams.old.store) (shape_in diagrams.old.store) level (edge_of x) (edge_of y) }
    ensures { KidsBuilt diagrams.old.store diagrams.new.store level (goal op (nodes_in diagrams.old.store) (shape_in diagrams.old.store) level (edge_of x) (edge_of y)) result }
{
    let node_x = diagrams.store.node_at(x.child);
    let node_y = diagrams.store.node_at(y.child);
    let count = diagrams.store.count(level);
    let pairs = node_x.edges[..count].iter().zip(&node_y.edges[..count]);
    // By a loop: `array::try_from_fn` says nothing of the store that its calls leave.
    let mut kids = [NEVER; 8];
    for (i, (a, b)) in pairs.enumerate() {
        let left = raise(*a, x.weight);
        let right = raise(*b, y.weight);
        kids[i] = join(diagrams, op, level + 1, left, right)?;
    }
    Some(kids)
}
