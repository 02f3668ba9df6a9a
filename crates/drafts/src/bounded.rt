//! A move as it is handed in, in the bounded lists of a slot.
ghost use Rattle.std.specs.Prelude.{◌≡◌, true, false, map, MatchOption};
ghost use Rattle.lists.specs.Shorts.{listed};
ghost use Rattle.model.specs.Calls.{tests_off, surcharges_off, lengths_off};
ghost use Rattle.moves.specs.Views.{surcharge_of, move_of};
ghost use Rattle.drafts.specs.Drafts.{charge_of, charges_of, draft_of};

use crate::draft::{Charge, Draft};
use lists::limits::*;
use lists::short::Short;
use moves::entry::{Move, Surcharge};
use moves::pair::Pair;

/// Fills the room past the end of a bounded list; never read.
const NO_PAIR: Pair = Pair {
    device: 0,
    setting: 0,
};

impl Charge<'_> {
    /// The surcharge, or nothing where it has no test or too many.
    fn bounded(&self) -> Option<Surcharge>
        ensures { MatchOption result (tests_off (charge_of self.now) ≡ true) (λ x. (tests_off (charge_of self.now) ≡ false) × (surcharge_of x ≡ charge_of self.now)) }
    {
        // A guard: `then_some(())?` would hide the test behind a value that says nothing.
        if self.tests.is_empty() {
            return None;
        }
        let tests = Short::of(self.tests, NO_PAIR)?;
        Some(Surcharge::new(tests, self.extra))
    }
}

/// The surcharges, or nothing where there are too many, or one has no test or too many.
pub(crate) fn bounded_all(charges: &[Charge]) -> Option<Short<Surcharge, MOST_SURCHARGES>>
    ensures { MatchOption result (surcharges_off (charges_of charges.now) ≡ true) (λ xs. (surcharges_off (charges_of charges.now) ≡ false) × (map surcharge_of (listed xs) ≡ charges_of charges.now)) }
{
    let mut all = Short::new(Surcharge::new(Short::new(NO_PAIR), 0));
    for charge in charges {
        let surcharge = charge.bounded()?;
        all.push(surcharge)?;
    }
    Some(all)
}

impl Draft<'_> {
    /// The move, or nothing where a list is longer or shorter than a move's may be.
    pub(crate) fn bounded(&self) -> Option<Move>
        ensures { MatchOption result (lengths_off (draft_of self.now) ≡ true) (λ m. (lengths_off (draft_of self.now) ≡ false) × (move_of m ≡ draft_of self.now)) }
    {
        if self.effects.is_empty() {
            return None;
        }
        let conditions = Short::of(self.conditions, NO_PAIR)?;
        let effects = Short::of(self.effects, NO_PAIR)?;
        let surcharges = bounded_all(self.surcharges)?;
        Some(Move::new(conditions, effects, self.base, surcharges))
    }
}
