//! A way performed, move by move.
ghost use Rattle.std.specs.Prelude.{IfOk, IsOkUnless};
ghost use Rattle.rig.specs.Rigs.{contents};
ghost use Rattle.planfile.specs.Telling.{Runs, Timed};

use report::step::Step;
use rig::frame::Rig;
use std::alloc::{AllocFailed, Global};

/// Performs moves that the rig accepts one after another, and answers each with its time.
pub(crate) fn perform_all(
    heap: Global,
    rig: &mut Rig,
    moves: &[u8],
) -> Result<Vec<Step>, AllocFailed<Step>>
    requires accepted { Runs (contents rig.old) moves.now }
    ensures timed { IfOk result (λ steps. Timed (contents rig.old) moves.now steps.items (contents rig.new)) }
{
    let mut steps = Vec::new(heap);
    for number in moves {
        let time = rig.perform(usize::from(*number)).unwrap();
        let step = Step {
            number: *number,
            time: u64::from(time),
        };
        steps.push(step)?;
    }
    Ok(steps)
}
