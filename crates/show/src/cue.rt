use drafts::draft::{Charge, Draft};
use moves::fault::RigFault;
use planner::answer::Plan;
use steps::fault::PlanFault;

/// A call that is to be made, with what it takes and the place of its reply.
// The reply stands in each variant, for its type is the call's: beside a call it could be of another one's type.
#[derive(Drop)]
pub enum Cue<'a, S> {
    /// Puts a move into a vacant slot.
    Add {
        number: usize,
        draft: &'a Draft<'a>,
        reply: Option<Result<(), RigFault>>,
    },
    /// Replaces the base and the surcharges of a move.
    Retime {
        number: usize,
        base: u16,
        charges: &'a [Charge<'a>],
        reply: Option<Result<(), RigFault>>,
    },
    /// Makes the slot of a move vacant.
    Withdraw {
        number: usize,
        reply: Option<Result<(), RigFault>>,
    },
    /// Carries out a move.
    Perform {
        number: usize,
        reply: Option<Result<u32, RigFault>>,
    },
    /// Takes a mask for each device.
    Want {
        masks: Vec<u8>,
        reply: Option<Result<u64, RigFault>>,
    },
    /// Finds the quickest run, with a shelf and a sheet of its own.
    Plan {
        shelf: S,
        sheet: Vec<u8>,
        reply: Option<Result<Plan, PlanFault>>,
    },
}
