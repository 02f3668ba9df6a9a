ghost use Rattle.std.specs.Prelude.{◌≡◌, MatchOption, IfSome};
ghost use Rattle.table.specs.Tables.{Empty};
ghost use Rattle.build.specs.Grew.{nodes_in, shape_in};
ghost use Rattle.memo.specs.Results.{Unknown, Recalled, Added, Fewer, Knows, Right};

use crate::diagrams::Diagrams;
use crate::results::{recall, remember};
use build::node_store::NodeStore;
use nodes::edge::Edge;
use nodes::remembered::{Key, Remembered};
use std::mem::swap;
use table::slots::clear;

// The work is on slices, whose contracts speak of lists; the methods lend the slices.
impl Diagrams {
    /// The diagrams of a store; nothing is remembered yet.
    pub fn of(store: NodeStore, mut memo: Vec<Option<Remembered>>) -> Diagrams
        ensures store { result.store ≡ store }
        ensures empty { Empty result.memo.items }
    {
        clear(memo.as_mut_slice());
        Diagrams::with(store, memo)
    }

    /// The diagrams of a store, with the results that these slots hold.
    pub fn with(store: NodeStore, memo: Vec<Option<Remembered>>) -> Diagrams
        requires { Knows (nodes_in store) (shape_in store) memo.items }
        ensures store { result.store ≡ store }
        ensures memo { result.memo ≡ memo }
    {
        let kept = memo.iter().flatten().count();
        Diagrams { store, memo, kept }
    }

    /// The result that is remembered for the key, if there is one.
    pub fn recall(&self, key: &Key) -> Option<Edge>
        ensures recalled { MatchOption result (Unknown self.now.memo.items key.now) (Recalled self.now.memo.items key.now) }
        ensures right { IfSome result (Right (nodes_in self.now.store) (shape_in self.now.store) key.now) }
    {
        recall(self.memo.as_slice(), key)
    }

    /// Forgets every result where three quarters of the slots are taken: from there on a search would pass many of them.
    fn make_room(&mut self)
        ensures store { self.new.store ≡ self.old.store }
        ensures fewer { Fewer self.old.memo.items self.new.memo.items }
    {
        if self.kept >= 3 * (self.memo.len() / 4) {
            self.forget();
        }
    }

    /// Puts a result into the slots. Where none is free, all others are forgotten.
    fn keep(&mut self, x: Remembered)
        requires right { Right (nodes_in self.old.store) (shape_in self.old.store) x.key x.result }
        ensures store { self.new.store ≡ self.old.store }
        ensures added { Added self.old.memo.items self.new.memo.items x }
    {
        self.kept = self.kept.saturating_add(1);
        remember(self.memo.as_mut_slice(), x)
    }

    /// Remembers a result. Where the slots are crowded, all others are forgotten.
    pub fn remember(&mut self, x: Remembered)
        requires right { Right (nodes_in self.old.store) (shape_in self.old.store) x.key x.result }
        ensures store { self.new.store ≡ self.old.store }
        ensures added { Added self.old.memo.items self.new.memo.items x }
    {
        self.make_room();
        self.keep(x);
    }

    /// Forgets every result.
    pub fn forget(&mut self)
        ensures store { self.new.store ≡ self.old.store }
        ensures empty { Empty self.new.memo.items }
    {
        clear(self.memo.as_mut_slice());
        self.kept = 0;
    }

    /// Changes places with another store, and forgets every result.
    pub fn exchange(&mut self, other: &mut NodeStore)
        ensures store { self.new.store ≡ other.old }
        ensures other { other.new ≡ self.old.store }
        ensures empty { Empty self.new.memo.items }
    {
        self.forget();
        swap(&mut self.store, other);
    }
}
