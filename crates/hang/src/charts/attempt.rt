ghost use Rattle.std.specs.Prelude.{◌≡◌, ◌<◌};
ghost use Rattle.build.specs.Grew.{nodes_in, shape_in, MadeIn};
ghost use Rattle.pegs.specs.Held.{Alike};
ghost use Rattle.hang.specs.Tasks.{Allowed, made, Tried};
ghost use Rattle.hang.specs.Carried.{carried};

use crate::charts::Charts;
use crate::task::Task;
use apply::join::join;
use dials::dial;
use nodes::edge::Edge;
use nodes::remembered::Op;
use puts::put;
use table::slots::taken;

// What each leaves is said in two clauses, of the pegs and of the store, which are the two parts of charts.
// `Allowed` in each contract, and not in a task: it relates a task to what the pegs carry at that moment.
// A target is below `N` by a clause: of an array's own length no type of a number could say more.
impl<const N: usize> Charts<N> {
    /// The edge of two pegs joined.
    fn join_pegs(&mut self, op: Op, left: u8, right: u8) -> Option<Edge>
        requires allowed { Allowed (shape_in self.old.diagrams.store) (carried self.old) (Task.Join op left right) }
        ensures pegs { self.new.pegs ≡ self.old.pegs }
        ensures made { MadeIn self.old.diagrams.store self.new.diagrams.store 0 (made (shape_in self.old.diagrams.store) (carried self.old) (Task.Join op left right)) result }
    {
        let x = taken(&self.pegs, usize::from(left))?;
        let y = taken(&self.pegs, usize::from(right))?;
        join(&mut self.diagrams, op, 0, x, y)
    }

    /// The edge of a peg once a device is at a setting.
    fn put_peg(&mut self, peg: u8, device: u8, setting: u8) -> Option<Edge>
        requires allowed { Allowed (shape_in self.old.diagrams.store) (carried self.old) (Task.Put peg device setting) }
        ensures pegs { self.new.pegs ≡ self.old.pegs }
        ensures made { MadeIn self.old.diagrams.store self.new.diagrams.store 0 (made (shape_in self.old.diagrams.store) (carried self.old) (Task.Put peg device setting)) result }
    {
        let e = taken(&self.pegs, usize::from(peg))?;
        put(&mut self.diagrams, 0, device, setting, e)
    }

    /// The edge of the chart to be hung, or none where no slot is free for one of its parts.
    // By a match: what is to be hung is tried twice, and a closure would take the diagrams and the pegs.
    fn attempt(&mut self, task: Task) -> Option<Edge>
        requires allowed { Allowed (shape_in self.old.diagrams.store) (carried self.old) task }
        ensures pegs { self.new.pegs ≡ self.old.pegs }
        ensures made { MadeIn self.old.diagrams.store self.new.diagrams.store 0 (made (shape_in self.old.diagrams.store) (carried self.old) task) result }
    {
        match task {
            Task::Dial { device, entries } => {
                dial(&mut self.diagrams.store, 0, usize::from(device), &entries)
            }
            Task::Join { op, left, right } => self.join_pegs(op, left, right),
            Task::Put {
                peg,
                device,
                setting,
            } => self.put_peg(peg, device, setting),
        }
    }

    /// Hangs the chart on a peg; none where no slot is free for one of its parts, and every peg is as it was.
    pub fn try_to_hang(&mut self, task: Task, target: usize) -> Option<()>
        requires allowed { Allowed (shape_in self.old.diagrams.store) (carried self.old) task }
        requires target { target < N }
        ensures kept { Alike self.old.diagrams.store self.new.diagrams.store }
        ensures tried { Tried (nodes_in self.old.diagrams.store) (shape_in self.old.diagrams.store) (carried self.old) (carried self.new) (made (shape_in self.old.diagrams.store) (carried self.old) task) target result }
    {
        let e = self.attempt(task)?;
        self.pegs[target] = Some(e);
        Some(())
    }
}
