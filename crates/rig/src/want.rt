//! Want, and whether the present scene is wanted.
ghost use Rattle.std.specs.Prelude.{◌≡◌};
ghost use Rattle.model.specs.Masks.{wanted};
ghost use Rattle.model.specs.Calls.{wants, wanting, CountsWanted};
ghost use Rattle.moves.specs.Faults.{numbered};
ghost use Rattle.rig.specs.Rigs.{contents};

use crate::frame::Rig;
use crate::masks::*;
use lists::short::Short;
use moves::fault::RigFault;

impl Rig {
    /// Takes a mask for each device, and answers how many scenes are wanted.
    pub fn want(&mut self, masks: &[u8]) -> Result<u64, RigFault>
        ensures answer { numbered result ≡ wants (contents self.old) masks.now }
        ensures left { contents self.new ≡ wanting (contents self.old) masks.now }
        ensures counted { CountsWanted (contents self.old) masks.now (numbered result) }
    {
        if masks.len() != self.settings().len() {
            return Err(RigFault::CountsOff);
        }
        let kept = Short::of(masks, 0).ok_or(RigFault::CountsOff)?;
        if some_ill(masks, self.settings()) {
            return Err(RigFault::MaskIll);
        }
        self.devices.masks = kept;
        Ok(product(masks))
    }

    /// Whether the present scene is wanted.
    pub fn is_wanted(&self) -> bool
        ensures { result ≡ wanted (contents self.now).masks (contents self.now).scene }
    {
        every_admitted(self.masks(), self.scene())
    }
}
