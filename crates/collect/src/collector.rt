ghost use Rattle.std.specs.Prelude.{◌≡◌, ◌≤◌, false, length, drop};
ghost use Rattle.table.specs.Tables.{slot};
ghost use Rattle.model.specs.Charts.{late};
ghost use Rattle.store.specs.Stores.{chart, below, Fine, Store};
ghost use Rattle.store.specs.Once.{store_prop};
ghost use Rattle.build.specs.Builds.{Built};
ghost use Rattle.build.specs.Grew.{nodes_in, shape_in, Grew};
ghost use Rattle.collect.specs.Copies.{Moved};
ghost use Rattle.collect.specs.Once.{moved_prop};

use crate::moved::note;
use build::node_store::NodeStore;
use build::reach::node_at;
use nodes::edge::{Edge, NEVER};
use nodes::node::Node;
use table::slots::taken;

/// The slots whose nodes are copied, the store that they are copied into, and right notes of where each was copied.
#[derive(Drop)]
pub struct Collector<'a> {
    pub source: &'a [Option<Node>],
    pub spare: &'a mut NodeStore,
    pub moved: &'a mut [Option<u16>],
    ghost store: { Store source.now (shape_in spare.now) } by { store_prop source.now (shape_in spare.now) },
    ghost right: { Moved source.now (nodes_in spare.now) (shape_in spare.now) moved.now } by { moved_prop source.now (nodes_in spare.now) (shape_in spare.now) moved.now },
}

impl Collector<'_> {
    ghost use Rattle.collect.specs.Collecting.{Lasts};

    /// The slot that the node in a slot was copied to, if it was.
    // A method: in `copy`, once `taken(self.moved, ..)` has read the notes, a proof knows none of them any more.
    fn copied(&self, i: u16) -> Option<u16>
        ensures { result ≡ slot self.now.moved.now i }
    {
        taken(self.moved, usize::from(i))
    }

    /// The edge with the chart of `e` in the spare store, into which the nodes that it reaches are copied, each once;
    /// none where no slot is free for one.
    pub fn copy(&mut self, level: usize, e: Edge) -> Option<Edge>
        requires depth { level ≤ length (shape_in self.old.spare.now) }
        requires fine { Fine self.old.source.now (drop level (shape_in self.old.spare.now)) level e }
        requires timely { late (below self.old.source.now (drop level (shape_in self.old.spare.now)) e) ≡ false }
        ensures lasts { Lasts self.old self.new }
        ensures grew { Grew self.old.spare.now self.new.spare.now level (chart self.old.source.now (drop level (shape_in self.old.spare.now)) e) }
        ensures built { Built (nodes_in self.new.spare.now) (shape_in self.old.spare.now) level (chart self.old.source.now (drop level (shape_in self.old.spare.now)) e) result }
    {
        if level == self.spare.devices() {
            return Some(e);
        }
        if let Some(child) = self.copied(e.child) {
            return Some(Edge { child, ..e });
        }
        let node = node_at(self.source, e.child);
        let count = self.spare.count(level);
        // By a loop, as for dials, puts and joins: `array::try_from_fn` says nothing of the store that its calls leave.
        let mut kids = [NEVER; 8];
        for (i, kid) in node.edges[..count].iter().enumerate() {
            kids[i] = self.copy(level + 1, *kid)?;
        }
        let made = self.spare.make(level, kids)?;
        note(self.moved, e.child, made.child);
        Some(Edge {
            child: made.child,
            ..e
        })
    }
}
