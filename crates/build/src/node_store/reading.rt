ghost use Rattle.std.specs.Prelude.{◌≡◌, ◌<◌, ◌≤◌, min, false, length, take, count_by, is_some, slice_index};
ghost use Rattle.model.specs.Charts.{late, greatest as greatest_of};
ghost use Rattle.model.specs.Lists.{some};
ghost use Rattle.store.specs.Stores as stores;
ghost use Rattle.store.specs.Stores.{chart, Fine};
ghost use Rattle.build.specs.Grew.{nodes_in, shape_in};

use crate::node_store::NodeStore;
use crate::reach::{node_at, reach};
use nodes::edge::Edge;
use nodes::node::Node;

/// How many slots tell how crowded all are.
pub const SAMPLE: usize = 64;

impl NodeStore {
    /// The slots, each free or with a node.
    pub fn as_slice(&self) -> &[Option<Node>]
        ensures value { result.now ≡ nodes_in self.now }
    {
        self.nodes.as_slice()
    }

    /// The node in a slot; a free slot stands for a node without times.
    pub fn node_at(&self, slot: u16) -> Node
        ensures value { result ≡ stores.node_at (nodes_in self.now) slot }
    {
        node_at(self.nodes.as_slice(), slot)
    }

    /// How many slots there are.
    pub fn slots(&self) -> usize
        ensures value { result ≡ length (nodes_in self.now) }
    {
        self.nodes.len()
    }

    /// How many of the first slots, up to 64 of them, are taken. Nodes lie evenly, so it tells how crowded all slots are.
    pub fn crowd(&self) -> usize
        ensures value { result ≡ count_by is_some (take (min (length (nodes_in self.now)) 64) (nodes_in self.now)) }
        ensures few { result ≤ 64 }
    {
        let nodes = self.as_slice();
        nodes[..nodes.len().min(SAMPLE)]
            .iter()
            .filter(|slot| slot.is_some())
            .count()
    }

    /// The number of settings of each device.
    pub fn shape(&self) -> &[u8]
        ensures value { result.now ≡ shape_in self.now }
    {
        self.settings.as_slice()
    }

    /// How many devices the shape has.
    pub fn devices(&self) -> usize
        ensures value { result ≡ length (shape_in self.now) }
    {
        self.settings.as_slice().len()
    }

    /// How many settings a device has.
    pub fn count(&self, device: usize) -> usize
        requires low { device < length (shape_in self.now) }
        ensures value { result ≡ slice_index (shape_in self.now) device }
        ensures few { result ≤ 8 }
    {
        usize::from(self.settings.as_slice()[device])
    }

    /// The greatest time of an edge's chart, if it has one.
    pub fn greatest(&self, e: Edge) -> Option<u64>
        requires fine { Fine (nodes_in self.now) (shape_in self.now) 0 e }
        requires timely { some late (chart (nodes_in self.now) (shape_in self.now) e) ≡ false }
        ensures value { result ≡ greatest_of (chart (nodes_in self.now) (shape_in self.now) e) }
    {
        reach(self.nodes.as_slice(), self.shape(), 0, e)
    }
}
