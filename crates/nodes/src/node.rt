ghost use Rattle.std.specs.Prelude.{◌≡◌, ◌%◌};
ghost use Rattle.nodes.specs.Hashes.{mixed};
ghost use Rattle.std.proofs.Common.{rules};

use crate::edge::Edge;
use crate::hash;
use table::entry::Entry;

/// A node of a diagram: the device that it branches on, the greatest time below it, and an edge for each setting.
///
/// Edges past the device's last setting are never, with child 0.
#[derive(Clone, Copy, PartialEq, Eq)]
pub struct Node {
    pub level: u8,
    pub most: Option<u64>,
    // An array: a device has eight settings at most, and the edges lie in place.
    pub edges: [Edge; 8],
}

/// The unique table: a node is its own key.
impl Entry for Node {
    ghost alike = { λ x y. x ≡ y };

    ghost initial = { λ x n. mixed x.level x.edges % n };

    ghost reflexive = { Prim.search rules };

    ghost symmetric = { Prim.search rules };

    ghost transitive = { Prim.search rules };

    ghost together = { Prim.search rules };

    fn same_key(&self, other: &Node) -> bool {
        *self == *other
    }

    fn start(&self, slots: usize) -> usize {
        hash::start(u32::from(self.level), &self.edges, slots)
    }
}
