ghost use Rattle.hang.specs.Tasks.{Allowed, made};
ghost use Rattle.diagram.specs.Means.{means, Hung};

use crate::diagram_shelf::DiagramShelf;
use hang::task::Task;
use shelf::fault::ShelfFault;
use shelf::numbers::Peg;

impl DiagramShelf {
    /// Hangs a chart on a peg, or refuses it for want of room.
    pub(crate) fn hang_task(&mut self, task: Task, target: Peg) -> Result<(), ShelfFault>
        requires allowed { Allowed (means self.old).shape (means self.old).pegs task }
        ensures hung { Hung (means self.old) (means self.new) target.number (made (means self.old).shape (means self.old).pegs task) result }
    {
        let moved = self.moved.as_mut_slice();
        self.charts
            .hang(&mut self.spare, moved, task, target.number)
            .ok_or(ShelfFault::NoRoom)
    }
}
