//! A rig planned, and its way performed.
ghost use Rattle.rig.specs.Rigs.{contents};
ghost use Rattle.planfile.specs.Telling.{Made, ToldOfCue, Tells};

use crate::failure::Failure;
use crate::performing::perform_all;
use planner::answer::Plan;
use report::told::Told;
use rig::frame::Rig;
use shelf::calls::Shelf;
use show::cue::Cue;
use show::play::call;
use std::alloc::Global;

/// What is told of a plan that was made: the moves on the sheet are performed, if there is a way.
fn tell<S: Shelf>(heap: Global, mut rig: Rig, cue: &Cue<'_, S>) -> Result<Told, Failure>
    requires made { Made S.meaning (contents rig) cue.now }
    ensures told { ToldOfCue (contents rig) cue.now result }
{
    let Cue::Plan {
        sheet,
        reply: Some(reply),
        ..
    } = cue
    else {
        unreachable!()
    };
    match (*reply)? {
        Plan::Way {
            moves,
            time,
            rounds,
        } => {
            let steps = perform_all(heap, &mut rig, &sheet.as_slice()[..moves])?;
            Ok(Told::Way {
                steps,
                time,
                rounds,
            })
        }
        Plan::NoWay { rounds } => Ok(Told::NoWay { rounds }),
    }
}

/// Plans on a shelf and a sheet, and performs the way, if there is one.
pub fn plan_rig<S: Shelf + Drop>(
    heap: Global,
    mut rig: Rig,
    shelf: S,
    sheet: Vec<u8>,
) -> Result<Told, Failure>
    ensures tells { Tells (contents rig) (S.meaning shelf) sheet.items result }
{
    let mut cue = Cue::Plan {
        shelf,
        sheet,
        reply: None,
    };
    call(&mut rig, &mut cue);
    tell(heap, rig, &cue)
}
