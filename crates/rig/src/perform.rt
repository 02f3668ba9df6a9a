//! Perform, withdraw and look: the calls that take one number.
ghost use Rattle.std.specs.Prelude.{◌≡◌};
ghost use Rattle.model.specs.Calls.{withdraws, withdrawn, performs, performed, Moved, looks};
ghost use Rattle.moves.specs.Faults.{numbered};
ghost use Rattle.rig.specs.Rigs.{contents};

use crate::frame::Rig;
use crate::slots::*;
use moves::fault::RigFault;
use moves::scene::*;

impl Rig {
    /// Carries out a move whose conditions hold, and answers its time in tenths of a second.
    pub fn perform(&mut self, number: usize) -> Result<u32, RigFault>
        ensures answer { numbered result ≡ performs (contents self.old) number }
        ensures left { contents self.new ≡ performed (contents self.old) number }
        ensures moved { Moved (contents self.old) number (numbered result) (contents self.new) }
    {
        let entry = *occupied(self.slots(), number)?;
        if !every_holds(entry.conditions(), self.scene()) {
            return Err(RigFault::ConditionUnmet);
        }
        let time = entry.time(self.scene());
        apply(entry.effects(), &mut self.devices.scene);
        Ok(time)
    }

    /// Makes the slot of a move vacant.
    pub fn withdraw(&mut self, number: usize) -> Result<(), RigFault>
        ensures answer { numbered result ≡ withdraws (contents self.old) number }
        ensures left { contents self.new ≡ withdrawn (contents self.old) number }
    {
        occupied(self.slots(), number)?;
        store(self.slots.as_mut_slice(), number, None);
        Ok(())
    }

    /// A device's setting and its mask.
    // A pair without a name of its own: the contract speaks of a setting and a mask side by side.
    pub fn look(&self, device: usize) -> Result<(u8, u8), RigFault>
        ensures { numbered result ≡ looks (contents self.now) device }
    {
        let setting = self.scene().get(device).ok_or(RigFault::DeviceHigh)?;
        let mask = self.masks().get(device).ok_or(RigFault::DeviceHigh)?;
        Ok((*setting, *mask))
    }
}
