ghost use Rattle.std.specs.Prelude.{◌≡◌, ◌+◌, ◌/◌, ◌<◌, ◌≤◌, max, length};
ghost use Rattle.model.specs.Shelves.{charts};
ghost use Rattle.store.specs.Fillings.{Owned};
ghost use Rattle.build.specs.Grew.{nodes_in, shape_in};
ghost use Rattle.pegs.specs.Held.{Alike};
ghost use Rattle.hang.specs.Tasks.{Allowed, made, Told};
ghost use Rattle.hang.specs.Carried.{carried};

use crate::charts::Charts;
use crate::task::Task;
use build::node_store::NodeStore;
use build::node_store::reading::SAMPLE;
use pegs::sweep::sweep;

/// Fifteen sixteenths of a sample of slots: a store that is less crowded is not collected early.
pub const LEAST_LIMIT: usize = SAMPLE / 16 * 15;

/// The limit once collecting has left so many of a sample taken: half of what is free may be taken again.
fn limit_above(crowd: usize) -> usize
    requires { crowd ≤ 64 }
    ensures { result ≡ max 60 ((crowd + 64) / 2) }
{
    LEAST_LIMIT.max((crowd + SAMPLE) / 2)
}

impl<const N: usize> Charts<N> {
    /// Keeps what the pegs reach and nothing else, and forgets remembered results.
    fn collect(&mut self, spare: &mut NodeStore, moved: &mut [Option<u16>])
        requires alike { Alike self.old.diagrams.store spare.old }
        ensures kept { Alike self.old.diagrams.store self.new.diagrams.store }
        ensures alike { Alike self.new.diagrams.store spare.new }
        ensures same { carried self.new ≡ carried self.old }
        ensures owned { Owned (nodes_in self.new.diagrams.store) (shape_in self.old.diagrams.store) (charts (carried self.old)) }
    {
        let pegs = &mut self.pegs;
        sweep(&self.diagrams.store, spare, moved, &mut pegs[..]);
        self.diagrams.exchange(spare);
        self.limit = limit_above(self.diagrams.store.crowd());
    }

    /// Collects early where the store is crowded: from there on a search would pass many nodes.
    fn make_room(&mut self, spare: &mut NodeStore, moved: &mut [Option<u16>])
        requires alike { Alike self.old.diagrams.store spare.old }
        ensures kept { Alike self.old.diagrams.store self.new.diagrams.store }
        ensures alike { Alike self.new.diagrams.store spare.new }
        ensures same { carried self.new ≡ carried self.old }
    {
        if self.diagrams.store.crowd() > self.limit {
            self.collect(spare, moved);
        }
    }

    /// Hangs a chart on a peg. Where the store is crowded it is collected first. Where it is full it is collected, and the chart is tried once more; none where it is
    /// full again, and every peg is as it was.
    pub fn hang(
        &mut self,
        spare: &mut NodeStore,
        moved: &mut [Option<u16>],
        task: Task,
        target: usize,
    ) -> Option<()>
        requires allowed { Allowed (shape_in self.old.diagrams.store) (carried self.old) task }
        requires target { target < N }
        requires alike { Alike self.old.diagrams.store spare.old }
        ensures kept { Alike self.old.diagrams.store self.new.diagrams.store }
        ensures alike { Alike self.new.diagrams.store spare.new }
        ensures told { Told (length (nodes_in self.old.diagrams.store)) (shape_in self.old.diagrams.store) (carried self.old) (carried self.new) (made (shape_in self.old.diagrams.store) (carried self.old) task) target result }
    {
        self.make_room(spare, moved);
        if self.try_to_hang(task, target).is_some() {
            return Some(());
        }
        self.collect(spare, moved);
        self.try_to_hang(task, target)
    }
}
