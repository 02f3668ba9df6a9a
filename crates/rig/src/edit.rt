//! Add and retime: the calls that hand in a move or its times.
ghost use Rattle.std.specs.Prelude.{◌≡◌};
ghost use Rattle.model.specs.Calls.{adds, added, retimes, retimed};
ghost use Rattle.moves.specs.Faults.{numbered};
ghost use Rattle.rig.specs.Rigs.{contents};
ghost use Rattle.drafts.specs.Drafts.{charges_of, draft_of};

use crate::frame::Rig;
use crate::slots::*;
use drafts::draft::{Charge, Draft};
use drafts::lawful::lawful_times;
use moves::fault::RigFault;

impl Rig {
    /// Puts a move into the vacant slot that the caller numbers.
    pub fn add(&mut self, number: usize, draft: &Draft) -> Result<(), RigFault>
        ensures answer { numbered result ≡ adds (contents self.old) number (draft_of draft.now) }
        ensures left { contents self.new ≡ added (contents self.old) number (draft_of draft.now) }
    {
        vacant(self.slots(), number)?;
        let entry = draft.lawful(self.settings())?;
        store(self.slots.as_mut_slice(), number, Some(entry));
        Ok(())
    }

    /// Replaces the base and the surcharges of a move in its slot.
    pub fn retime(&mut self, number: usize, base: u16, charges: &[Charge]) -> Result<(), RigFault>
        ensures answer { numbered result ≡ retimes (contents self.old) number base (charges_of charges.now) }
        ensures left { contents self.new ≡ retimed (contents self.old) number base (charges_of charges.now) }
    {
        occupied(self.slots(), number)?;
        let surcharges = lawful_times(base, charges, self.settings())?;
        retime(self.slots.as_mut_slice(), number, base, surcharges);
        Ok(())
    }
}
