//! The parts of a move: made of bounded lists, read as slices, and replaced.
ghost use Rattle.std.specs.Prelude.{◌≡◌, map};
ghost use Rattle.lists.specs.Shorts.{listed};
ghost use Rattle.moves.specs.Views.{pairs_of, surcharge_of, move_of};
ghost use Rattle.model.specs.Calls.{retiming};

use crate::entry::{Move, Surcharge};
use crate::pair::Pair;
use lists::limits::*;
use lists::short::Short;

impl Surcharge {
    pub fn new(tests: Short<Pair, MOST_TESTS>, extra: u16) -> Surcharge
        ensures { surcharge_of result ≡ record { tests = pairs_of (listed tests); extra = extra } }
    {
        Surcharge { tests, extra }
    }

    pub fn tests(&self) -> &[Pair]
        ensures { pairs_of result.now ≡ (surcharge_of self.now).tests }
    {
        self.tests.as_slice()
    }

    pub fn extra(&self) -> u16
        ensures { result ≡ (surcharge_of self.now).extra }
    {
        self.extra
    }
}

impl Move {
    pub fn new(
        conditions: Short<Pair, MOST_CONDITIONS>,
        effects: Short<Pair, MOST_EFFECTS>,
        base: u16,
        surcharges: Short<Surcharge, MOST_SURCHARGES>,
    ) -> Move
        ensures { move_of result ≡ record { conditions = pairs_of (listed conditions); effects = pairs_of (listed effects); base = base; surcharges = map surcharge_of (listed surcharges) } }
    {
        Move {
            conditions,
            effects,
            base,
            surcharges,
        }
    }

    pub fn conditions(&self) -> &[Pair]
        ensures { pairs_of result.now ≡ (move_of self.now).conditions }
    {
        self.conditions.as_slice()
    }

    pub fn effects(&self) -> &[Pair]
        ensures { pairs_of result.now ≡ (move_of self.now).effects }
    {
        self.effects.as_slice()
    }

    pub fn base(&self) -> u16
        ensures { result ≡ (move_of self.now).base }
    {
        self.base
    }

    pub fn surcharges(&self) -> &[Surcharge]
        ensures { map surcharge_of result.now ≡ (move_of self.now).surcharges }
    {
        self.surcharges.as_slice()
    }

    /// Replaces the base and the surcharges.
    pub fn retime(&mut self, base: u16, surcharges: Short<Surcharge, MOST_SURCHARGES>)
        ensures { move_of self.new ≡ retiming base (map surcharge_of (listed surcharges)) (move_of self.old) }
    {
        self.base = base;
        self.surcharges = surcharges;
    }
}
