ghost use Rattle.std.specs.Prelude.{◌≡◌, ◌≤◌, false, length, drop};
ghost use Rattle.model.specs.Charts.{at, late};
ghost use Rattle.model.specs.Lists.{some};
ghost use Rattle.model.specs.Scenes.{SceneOf};
ghost use Rattle.store.specs.Stores.{chart, Fine};
ghost use Rattle.build.specs.Builds.{Ready};

use build::reach::{node_at, raise};
use nodes::edge::Edge;
use nodes::node::Node;

/// What the chart of an edge gives a scene, the devices from `level` on remaining: a time, or none.
pub fn walk(
    nodes: &[Option<Node>],
    settings: &[u8],
    scene: &[u8],
    level: usize,
    e: Edge,
) -> Option<u64>
    requires depth { level ≤ length settings.now }
    requires scene { SceneOf settings.now scene.now }
    requires ready { Ready nodes.now settings.now }
    requires fine { Fine nodes.now (drop level settings.now) level e }
    requires timely { some late (chart nodes.now (drop level settings.now) e) ≡ false }
    ensures value { result ≡ at (drop level settings.now) (chart nodes.now (drop level settings.now) e) (drop level scene.now) }
{
    let w = e.weight?;
    if level == settings.len() {
        return Some(w);
    }
    let node = node_at(nodes, e.child);
    let kid = node.edges[usize::from(scene[level])];
    walk(nodes, settings, scene, level + 1, raise(kid, w))
}
