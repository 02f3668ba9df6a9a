ghost use Rattle.build.specs.Builds.{Makeable, Spreadable, together, throughout};
ghost use Rattle.build.specs.Grew.{nodes_in, shape_in, MadeIn};

use crate::make::{make, spread};
use crate::node_store::NodeStore;
use nodes::edge::Edge;

// The work is on slices, whose contracts speak of lists; the methods lend the slices.
impl NodeStore {
    /// The edge to the normalised node with these edges, which is interned; none where no slot is free for it.
    pub fn make(&mut self, level: usize, kids: [Edge; 8]) -> Option<Edge>
        requires { Makeable (nodes_in self.old) (shape_in self.old) level kids }
        ensures { MadeIn self.old self.new level (together (nodes_in self.old) (shape_in self.old) level kids) result }
    {
        let settings = self.settings.as_slice();
        make(self.nodes.as_mut_slice(), settings, level, kids)
    }

    /// The edge to the node that has the same edge for each setting of its device.
    pub fn spread(&mut self, level: usize, kid: Edge) -> Option<Edge>
        requires { Spreadable (nodes_in self.old) (shape_in self.old) level kid }
        ensures { MadeIn self.old self.new level (throughout (nodes_in self.old) (shape_in self.old) level kid) result }
    {
        let settings = self.settings.as_slice();
        spread(self.nodes.as_mut_slice(), settings, level, kid)
    }
}
