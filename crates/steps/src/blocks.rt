//! The calls of one move: on peg 2 come to hang the times from peg 0 by way of the move.
ghost use Rattle.std.specs.Prelude.{[], ◌∷◌, map};
ghost use Rattle.model.specs.Shelves.{dial as a_dial, cheaper as a_cheaper, sum as a_sum};
ghost use Rattle.rule.specs.Steps.{effected as the_effected, conditioned as the_conditioned, further as the_further, tested as the_tested, surcharged as the_surcharged, tried as the_tried, of_slot};
ghost use Rattle.moves.specs.Views.{pairs_of, surcharge_of, move_of, slot_of};
ghost use Rattle.steps.specs.Ends.{Took};

use crate::dials::*;
use crate::halt::Halt;
use crate::round::Round;
use lists::limits::MOST_SETTINGS;
use moves::entry::{Move, Surcharge};
use moves::pair::Pair;
use shelf::calls::Shelf;

impl<'a, S: Shelf> Round<'a, S> {
    /// Puts each effect on peg 2, in order.
    fn effected(&mut self, effects: &[Pair]) -> Result<(), Halt>
        ensures took { Took S.meaning self.old (the_effected (pairs_of effects.now)) result self.new }
    {
        for effect in effects {
            self.put(2, 2, effect.device, effect.setting)?;
        }
        Ok(())
    }

    /// Adds entries of a device to a peg, by way of peg 3.
    pub fn add_dial(
        &mut self,
        target: u8,
        device: u8,
        entries: [Option<u64>; MOST_SETTINGS],
    ) -> Result<(), Halt>
        ensures took { Took S.meaning self.old (a_dial 3 device entries ∷ a_sum target target 3 ∷ []) result self.new }
    {
        self.dial(3, device, entries)?;
        self.sum(target, target, 3)
    }

    /// Adds each condition to peg 2: 0 where it holds, never elsewhere.
    fn conditioned(&mut self, conditions: &[Pair]) -> Result<(), Halt>
        ensures took { Took S.meaning self.old (the_conditioned (pairs_of conditions.now)) result self.new }
    {
        for condition in conditions {
            self.add_dial(
                2,
                condition.device,
                only_at(condition.setting, Some(0), None),
            )?;
        }
        Ok(())
    }

    /// Lowers peg 3 to entries of a device where they are less, by way of peg 4.
    // Two calls as in `add_dial`: one function for both would take the peg of the dial and the whole second call.
    fn lower_dial(&mut self, device: u8, entries: [Option<u64>; MOST_SETTINGS]) -> Result<(), Halt>
        ensures took { Took S.meaning self.old (a_dial 4 device entries ∷ a_cheaper 3 3 4 ∷ []) result self.new }
    {
        self.dial(4, device, entries)?;
        self.cheaper(3, 3, 4)
    }

    /// Lowers peg 3 to 0 where one of the tests fails.
    fn further(&mut self, extra: u16, tests: &[Pair]) -> Result<(), Halt>
        ensures took { Took S.meaning self.old (the_further extra (pairs_of tests.now)) result self.new }
    {
        for test in tests {
            self.lower_dial(test.device, dearer(extra, test.setting))?;
        }
        Ok(())
    }

    /// Hangs on peg 3 the extra where all tests hold, 0 elsewhere.
    fn tested(&mut self, extra: u16, tests: &[Pair]) -> Result<(), Halt>
        ensures took { Took S.meaning self.old (the_tested extra (pairs_of tests.now)) result self.new }
    {
        let Some((first, others)) = tests.split_first() else {
            return Ok(());
        };
        self.dial(3, first.device, dearer(extra, first.setting))?;
        self.further(extra, others)
    }

    /// Adds to peg 2 the extra where all tests of a surcharge hold.
    fn add_surcharge(&mut self, surcharge: &Surcharge) -> Result<(), Halt>
        ensures took { Took S.meaning self.old (the_surcharged (surcharge_of surcharge.now ∷ [])) result self.new }
    {
        self.tested(surcharge.extra(), surcharge.tests())?;
        self.sum(2, 2, 3)
    }

    /// Adds each surcharge to peg 2.
    fn surcharged(&mut self, surcharges: &[Surcharge]) -> Result<(), Halt>
        ensures took { Took S.meaning self.old (the_surcharged (map surcharge_of surcharges.now)) result self.new }
    {
        for surcharge in surcharges {
            self.add_surcharge(surcharge)?;
        }
        Ok(())
    }

    /// Hangs on peg 2 the times from peg 0 by way of a move.
    fn tried(&mut self, entry: &Move) -> Result<(), Halt>
        ensures took { Took S.meaning self.old (the_tried (move_of entry.now)) result self.new }
    {
        self.cheaper(2, 0, 0)?;
        self.effected(entry.effects())?;
        self.conditioned(entry.conditions())?;
        self.add_dial(2, 0, throughout(entry.base()))?;
        self.surcharged(entry.surcharges())
    }

    /// Lowers peg 1 to the times by way of the move of a slot, if one is there.
    pub fn lowered(&mut self, slot: &Option<Move>) -> Result<(), Halt>
        ensures took { Took S.meaning self.old (of_slot (slot_of slot.now)) result self.new }
    {
        let Some(entry) = slot else {
            return Ok(());
        };
        self.tried(entry)?;
        self.cheaper(1, 1, 2)
    }
}
