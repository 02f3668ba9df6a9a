//! A move or its times as they are handed in, judged whole: the smallest refusal that holds, or what a slot may hold.
ghost use Rattle.std.specs.Prelude.{◌≡◌, map};
ghost use Rattle.lists.specs.Shorts.{listed};
ghost use Rattle.model.specs.Calls.{move_checks, timing_checks};
ghost use Rattle.moves.specs.Faults.{Judged};
ghost use Rattle.moves.specs.Views.{surcharge_of, move_of};
ghost use Rattle.drafts.specs.Drafts.{charges_of, draft_of};

use crate::bounded::bounded_all;
use crate::draft::{Charge, Draft};
use crate::judge::{judge_pairs, times_off};
use lists::limits::*;
use lists::short::Short;
use moves::entry::{Move, Surcharge};
use moves::fault::RigFault;

impl Draft<'_> {
    /// The move that a slot may hold.
    pub fn lawful(&self, settings: &[u8]) -> Result<Move, RigFault>
        ensures { Judged (move_checks settings.now (draft_of self.now)) (λ m. move_of m ≡ draft_of self.now) result }
    {
        judge_pairs(self.conditions, self.effects, self.surcharges, settings)?;
        // No `ok_or` and `?`: a move is large, and each of them copies it once more.
        let Some(entry) = self.bounded() else {
            return Err(RigFault::LengthsOff);
        };
        if times_off(self.base, self.surcharges) {
            return Err(RigFault::TimesOff);
        }
        Ok(entry)
    }
}

/// The surcharges that a move may have beside the base.
pub fn lawful_times(
    base: u16,
    charges: &[Charge],
    settings: &[u8],
) -> Result<Short<Surcharge, MOST_SURCHARGES>, RigFault>
    ensures { Judged (timing_checks settings.now base (charges_of charges.now)) (λ xs. map surcharge_of (listed xs) ≡ charges_of charges.now) result }
{
    judge_pairs(&[], &[], charges, settings)?;
    let Some(surcharges) = bounded_all(charges) else {
        return Err(RigFault::LengthsOff);
    };
    if times_off(base, charges) {
        return Err(RigFault::TimesOff);
    }
    Ok(surcharges)
}
