//! A run of moves performed on a rig.
ghost use Rattle.std.specs.Prelude.{◌≡◌, ◌<◌, ◌^◌, length};
ghost use Rattle.rig.specs.Rigs.{contents};
ghost use Rattle.embed.specs.Files.{Ran};

use crate::unrun::Unrun;
use rig::frame::Rig;

/// A run has fewer moves than this, so that no sum of their times passes 64 bits.
const TOO_MANY: usize = 4_294_967_296;

/// Performs the moves one after another, and answers how long they take.
pub(crate) fn perform(rig: &mut Rig, run: &[u8]) -> Result<u64, Unrun>
    ensures { Ran (contents rig.old) run.now result (contents rig.new) }
{
    if run.len() >= TOO_MANY {
        return Err(Unrun::TooLong);
    }
    performed(rig, run)
}

/// Performs the moves of a run that is not too long.
#[tactic(auto, using(crate::proofs::Runs::performed_more))]
fn performed(rig: &mut Rig, run: &[u8]) -> Result<u64, Unrun>
    requires few { length run.now < 2 ^ 32 }
    ensures { Ran (contents rig.old) run.now result (contents rig.new) }
{
    let mut total = 0;
    for (place, number) in run.iter().enumerate() {
        let time = rig
            .perform(usize::from(*number))
            .map_err(|fault| Unrun::Refused { fault, place })?;
        total += u64::from(time);
    }
    Ok(total)
}
