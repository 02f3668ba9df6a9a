//! A chart that hangs on a peg which planning leaves alone.
use crate::sequence::Sequence;
use anyhow::{bail, ensure};
use shelf::calls::Shelf;
use shelf::fault::ShelfFault;

/// The peg of the guest.
const PEG: u8 = 5;

/// Planning leaves the pegs below this bare.
const WORK_PEGS: u8 = 5;

/// A dial of a device, with a time or never at each setting.
#[derive(Clone, Copy)]
pub struct Guest {
    device: u8,
    entries: [Option<u64>; 8],
}

impl Guest {
    /// A random guest for a rig of so many devices.
    pub fn invented(draws: &mut Sequence, devices: usize) -> Guest {
        let mut entries = [None; 8];
        for entry in entries.iter_mut() {
            *entry = draws.below(5).checked_sub(1);
        }
        let device = draws.place_below(devices);
        Guest {
            device: u8::try_from(device).unwrap_or(0),
            entries,
        }
    }

    /// Hangs it, if there is room for it, and answers whether it hangs.
    pub fn hang<S: Shelf>(&self, shelf: &mut S) -> anyhow::Result<bool> {
        match shelf.dial(PEG, self.device, &self.entries) {
            Ok(()) => Ok(true),
            Err(ShelfFault::NoRoom) => Ok(false),
            Err(fault) => bail!("a chart is refused by {}", fault.number()),
        }
    }

    /// It hangs as it did, and the pegs of planning are bare.
    pub fn is_kept<S: Shelf>(&self, shelf: &mut S) -> anyhow::Result<()> {
        for peg in 0..WORK_PEGS {
            let answer = shelf.same(peg, PEG);
            ensure!(
                answer == Err(ShelfFault::PegBare),
                "peg {peg} is not bare: {answer:?}"
            );
        }
        // There is room for the same chart once more, since it has no new parts.
        let again = shelf.dial(0, self.device, &self.entries);
        let answer = shelf.same(0, PEG);
        ensure!(
            again.is_ok() && answer == Ok(true),
            "the chart on peg {PEG} is not as it was"
        );
        Ok(())
    }
}
