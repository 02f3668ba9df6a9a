ghost use Rattle.std.specs.Prelude.{◌≡◌, ◌≤◌, false, length, drop, Some, None, MatchOption};
ghost use Rattle.table.specs.Tables.{slot};
ghost use Rattle.model.specs.Charts.{plus, late};
ghost use Rattle.store.specs.Stores as stores;
ghost use Rattle.build.specs.Builds.{raised};

use nodes::edge::{Edge, NEVER};
use nodes::node::Node;
use times::plus;

/// A node without times.
const NO_NODE: Node = Node {
    level: 0,
    most: None,
    edges: [NEVER; 8],
};

/// The node in a slot where it stands, if there is one.
// Lent, since a node is long: a copy is made only where the store changes while the node is looked at.
pub fn seen_at(nodes: &[Option<Node>], i: u16) -> Option<&Node>
    ensures { MatchOption result (slot nodes.now i ≡ None) (λ node. slot nodes.now i ≡ Some node.now) }
{
    nodes.get(usize::from(i))?.as_ref()
}

/// The node in a slot; a free slot stands for a node without times.
// Of a slice, as the next three: `make` asks while the store has lent its slots, the collector where it has slots alone.
pub fn node_at(nodes: &[Option<Node>], i: u16) -> Node
    ensures { result ≡ stores.node_at nodes.now i }
{
    match seen_at(nodes, i) {
        Some(node) => *node,
        None => NO_NODE,
    }
}

/// The greatest time below an edge that leads to a level, its weight apart.
fn below(nodes: &[Option<Node>], settings: &[u8], level: usize, e: Edge) -> Option<u64>
    requires { level ≤ length settings.now }
    ensures { result ≡ stores.below nodes.now (drop level settings.now) e }
{
    if level == settings.len() {
        return Some(0);
    }
    seen_at(nodes, e.child)?.most
}

/// The greatest time of an edge.
pub fn reach(nodes: &[Option<Node>], settings: &[u8], level: usize, e: Edge) -> Option<u64>
    requires depth { level ≤ length settings.now }
    requires timely { late (plus e.weight (stores.below nodes.now (drop level settings.now) e)) ≡ false }
    ensures { result ≡ plus e.weight (stores.below nodes.now (drop level settings.now) e) }
{
    let weight = e.weight?;
    plus(Some(weight), below(nodes, settings, level, e))
}

/// The greatest time of some edges that lead to a level.
pub fn highest(nodes: &[Option<Node>], settings: &[u8], level: usize, edges: &[Edge]) -> Option<u64>
    requires depth { level ≤ length settings.now }
    requires timely { late (stores.highest nodes.now (drop level settings.now) edges.now) ≡ false }
    ensures { result ≡ stores.highest nodes.now (drop level settings.now) edges.now }
{
    edges
        .iter()
        .filter_map(|e| reach(nodes, settings, level, *e))
        .max()
}

/// An edge whose times are all later.
pub fn raise(e: Edge, by: u64) -> Edge
    requires { late (plus (Some by) e.weight) ≡ false }
    ensures { result ≡ raised (Some by) e }
{
    Edge {
        weight: plus(Some(by), e.weight),
        ..e
    }
}
