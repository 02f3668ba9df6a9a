ghost use Rattle.std.specs.Prelude.{◌≡◌, ℕ, ◌<◌, ◌≤◌, length, slice_index, vec_len};
ghost use Rattle.table.specs.Tables.{Empty};
ghost use Rattle.lists.specs.Shorts.{listed};
ghost use Rattle.build.specs.Builds.{Ready};
ghost use Rattle.build.specs.Grew.{nodes_in, shape_in};

use crate::node_store::NodeStore;
use lists::limits::MOST_DEVICES;
use lists::short::Short;
use nodes::node::Node;
use table::slots::clear;

impl NodeStore {
    /// An empty store of nodes over devices with these numbers of settings, in these slots.
    pub fn of(settings: Short<u8, MOST_DEVICES>, mut nodes: Vec<Option<Node>>) -> NodeStore
        requires some { (k : ℕ) → k < length (listed settings) → 1 ≤ slice_index (listed settings) k }
        requires few { (k : ℕ) → slice_index (listed settings) k ≤ 8 }
        requires small { vec_len nodes ≤ 65536 }
        ensures empty { Empty (nodes_in result) }
        ensures size { length (nodes_in result) ≡ vec_len nodes }
        ensures shape { shape_in result ≡ listed settings }
    {
        clear(nodes.as_mut_slice());
        NodeStore::with(settings, nodes)
    }

    /// The store of the nodes that these slots hold.
    pub fn with(settings: Short<u8, MOST_DEVICES>, nodes: Vec<Option<Node>>) -> NodeStore
        requires { Ready nodes.items (listed settings) }
        ensures nodes { nodes_in result ≡ nodes.items }
        ensures shape { shape_in result ≡ listed settings }
    {
        NodeStore { settings, nodes }
    }

    /// Makes every slot free.
    pub fn clear(&mut self)
        ensures empty { Empty (nodes_in self.new) }
        ensures size { length (nodes_in self.new) ≡ length (nodes_in self.old) }
        ensures shape { shape_in self.new ≡ shape_in self.old }
    {
        clear(self.nodes.as_mut_slice());
    }
}
