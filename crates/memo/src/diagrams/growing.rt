ghost use Rattle.build.specs.Builds.{Makeable, Spreadable, together, throughout};
ghost use Rattle.build.specs.Grew.{nodes_in, shape_in, MadeIn};

use crate::diagrams::Diagrams;
use nodes::edge::Edge;

impl Diagrams {
    /// The edge to the normalised node with these edges, which is interned; none where no slot is free for it.
    pub fn make(&mut self, level: usize, kids: [Edge; 8]) -> Option<Edge>
        requires { Makeable (nodes_in self.old.store) (shape_in self.old.store) level kids }
        ensures { MadeIn self.old.store self.new.store level (together (nodes_in self.old.store) (shape_in self.old.store) level kids) result }
    {
        self.store.make(level, kids)
    }

    /// The edge to the node that has the same edge for each setting of its device.
    pub fn spread(&mut self, level: usize, kid: Edge) -> Option<Edge>
        requires { Spreadable (nodes_in self.old.store) (shape_in self.old.store) level kid }
        ensures { MadeIn self.old.store self.new.store level (throughout (nodes_in self.old.store) (shape_in self.old.store) level kid) result }
    {
        self.store.spread(level, kid)
    }
}
