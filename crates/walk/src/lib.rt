//! The entry of a scene: one path from an edge down to the terminal.
#![tactic(auto)]

ghost use Rattle.std.specs.Prelude.{◌≡◌, ◌≤◌, length, drop};
ghost use Rattle.model.specs.Charts.{at};
ghost use Rattle.model.specs.Scenes.{SceneOf};
ghost use Rattle.store.specs.Stores.{chart};
ghost use Rattle.build.specs.Builds.{Legal};
ghost use Rattle.build.specs.Grew.{nodes_in, shape_in};

use build::node_store::NodeStore;
use build::reach::raise;
use nodes::edge::Edge;

/// What the chart of an edge gives a scene, the devices from `level` on remaining: a time, or none.
pub fn walk(store: &NodeStore, scene: &[u8], level: usize, e: Edge) -> Option<u64>
    requires depth { level ≤ length (shape_in store.now) }
    requires scene { SceneOf (shape_in store.now) scene.now }
    requires legal { Legal (nodes_in store.now) (shape_in store.now) level e }
    ensures value { result ≡ at (drop level (shape_in store.now)) (chart (nodes_in store.now) (drop level (shape_in store.now)) e) (drop level scene.now) }
{
    let w = e.weight?;
    if level == store.devices() {
        return Some(w);
    }
    let node = store.node_at(e.child);
    let kid = node.edges[usize::from(scene[level])];
    walk(store, scene, level + 1, raise(kid, w))
}
