//! The rig in a file.
ghost use Rattle.std.specs.Prelude.{◌≡◌, vec_len};
ghost use Rattle.model.specs.Limits.{most_slots};
ghost use Rattle.embed.specs.Opens.{Filed};

use crate::unfiled::Unfiled;
use lists::limits::MOST_SLOTS;
use moves::entry::Move;
use rig::frame::Rig;
use rigfile::read::read;
use std::alloc::Global;

/// The rig in a file, over a table of 255 move slots that is handed over.
#[tactic(auto, using(crate::proofs::Given::rig_given, crate::proofs::Given::fault_given))]
fn rig_over(slots: Vec<Option<Move>>, file: &[u8]) -> Result<Rig, Unfiled>
    requires { vec_len slots ≡ most_slots }
    ensures { Filed file.now result }
{
    // A `match`: the closure of a `map_err` would lose which fault it is given.
    match read(file, slots) {
        Ok(rig) => Ok(rig),
        Err(refused) => Err(Unfiled::from(refused.fault)),
    }
}

/// The rig in a file.
pub(crate) fn rig_of(heap: Global, file: &[u8]) -> Result<Rig, Unfiled>
    ensures { Filed file.now result }
{
    let slots = vec![in heap; None; MOST_SLOTS].map_err(|_| Unfiled::NoMemory)?;
    rig_over(slots, file)
}
