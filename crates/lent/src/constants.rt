ghost use Rattle.std.specs.Prelude.{◌≡◌, ◌≤◌, false, length, drop};
ghost use Rattle.model.specs.Charts.{late};
ghost use Rattle.build.specs.Builds.{Ready, Made};
ghost use Rattle.dials.specs.Flats.{flat};

use build::make::spread;
use nodes::edge::Edge;
use nodes::node::Node;

/// The edge whose chart has one entry throughout, or none where no slot is free for a part of it.
pub fn constant(
    nodes: &mut [Option<Node>],
    settings: &[u8],
    level: usize,
    entry: Option<u64>,
) -> Option<Edge>
    requires depth { level ≤ length settings.now }
    requires ready { Ready nodes.old settings.now }
    requires timely { late entry ≡ false }
    ensures { Made nodes.old nodes.new settings.now level (flat (drop level settings.now) entry) result }
{
    if level == settings.len() {
        return Some(Edge {
            weight: entry,
            child: 0,
        });
    }
    let kid = constant(nodes, settings, level + 1, entry)?;
    spread(nodes, settings, level, kid)
}
