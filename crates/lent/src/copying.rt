ghost use Rattle.std.specs.Prelude.{◌≡◌, ◌≤◌, false, length, drop};
ghost use Rattle.model.specs.Charts.{late};
ghost use Rattle.store.specs.Stores.{chart, below, Fine, Store};
ghost use Rattle.build.specs.Builds.{Ready, Made};
ghost use Rattle.collect.specs.Copies.{Moved};

use build::make::make;
use build::reach::node_at;
use collect::moved::note;
use nodes::edge::{Edge, NEVER};
use nodes::node::Node;
use table::slots::taken;

/// The edge with the chart of `e` in other slots, into which the nodes that it reaches are copied, each once; none where
/// no slot is free for one.
pub(crate) fn copy(
    source: &[Option<Node>],
    nodes: &mut [Option<Node>],
    moved: &mut [Option<u16>],
    settings: &[u8],
    level: usize,
    e: Edge,
) -> Option<Edge>
    requires depth { level ≤ length settings.now }
    requires store { Store source.now settings.now }
    requires ready { Ready nodes.old settings.now }
    requires moved { Moved source.now nodes.old settings.now moved.old }
    requires fine { Fine source.now (drop level settings.now) level e }
    requires timely { late (below source.now (drop level settings.now) e) ≡ false }
    ensures made { Made nodes.old nodes.new settings.now level (chart source.now (drop level settings.now) e) result }
    ensures moved { Moved source.now nodes.new settings.now moved.new }
{
    if level == settings.len() {
        return Some(e);
    }
    if let Some(child) = taken(moved, usize::from(e.child)) {
        return Some(Edge { child, ..e });
    }
    let node = node_at(source, e.child);
    let count = usize::from(settings[level]);
    // By a loop: `array::try_from_fn` says nothing of the slots that its calls leave.
    let mut kids = [NEVER; 8];
    for (i, kid) in node.edges[..count].iter().enumerate() {
        kids[i] = copy(source, nodes, moved, settings, level + 1, *kid)?;
    }
    let made = make(nodes, settings, level, kids)?;
    note(moved, e.child, made.child);
    Some(Edge {
        child: made.child,
        ..e
    })
}
