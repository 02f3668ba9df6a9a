ghost use Rattle.build.specs.Builds.{Ready, Makeable, Spreadable, Made, together, throughout};

use crate::lowering::{least, lower_all};
use crate::reach::highest;
use nodes::edge::{Edge, NEVER};
use nodes::node::Node;
use table::slots::intern;

/// The edge to the normalised node with these edges, which is interned; none where no slot is free for it.
// Of lent slices, and no method of `NodeStore`: what the store's type says is shown again only once the node is in its slot.
pub fn make(
    nodes: &mut [Option<Node>],
    settings: &[u8],
    level: usize,
    kids: [Edge; 8],
) -> Option<Edge>
    requires ready { Ready nodes.old settings.now }
    requires makeable { Makeable nodes.old settings.now level kids }
    ensures { Made nodes.old nodes.new settings.now level (together nodes.old settings.now level kids) result }
{
    let low = least(&kids);
    let edges = lower_all(kids, low);
    let most = highest(nodes, settings, level + 1, &edges);
    // Casts: a level is below 12, and a slot's number below 65536.
    let node = Node {
        level: level as u8,
        most,
        edges,
    };
    let i = intern(nodes, node)?;
    Some(Edge {
        weight: low,
        child: i as u16,
    })
}

/// The edge to the node that has the same edge for each setting of its device.
pub fn spread(nodes: &mut [Option<Node>], settings: &[u8], level: usize, kid: Edge) -> Option<Edge>
    requires ready { Ready nodes.old settings.now }
    requires spreadable { Spreadable nodes.old settings.now level kid }
    ensures { Made nodes.old nodes.new settings.now level (throughout nodes.old settings.now level kid) result }
{
    let count = usize::from(settings[level]);
    let mut kids = [NEVER; 8];
    kids[..count].fill(kid);
    make(nodes, settings, level, kids)
}
