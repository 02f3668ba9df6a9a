ghost use Rattle.std.specs.Prelude.{◌≡◌, Some, None};
ghost use Rattle.steps.specs.declared.fault.PlanFault.TheVariants.{NoRoom as no_room};
ghost use Rattle.steps.specs.Faults.{number as the_number};

use crate::halt::Halt;
use crate::hanging::Hanging;
use shelf::fault::ShelfFault;

/// Why a plan is sent back.
#[derive(Clone, Copy, PartialEq, Eq, Debug)]
pub enum PlanFault {
    /// The rig and the shelf differ in shape.
    ShapesDiffer,
    /// The shelf refused a call: its own fault, the call, the round, and the number of the move that was worked on,
    /// if one was.
    // The fields of a halt and no halt: a caller reads each value by its name, in patterns that a halt inside would break.
    NoRoom {
        fault: ShelfFault,
        call: Hanging,
        round: u64,
        number: Option<u8>,
    },
    /// The sheet has fewer bytes than the way has moves.
    SheetShort {
        needed: usize,
    },
}

impl Halt {
    /// The fault of a plan, while the move was worked on, if one was.
    fn during(self, number: Option<u8>) -> PlanFault
        ensures { result ≡ no_room self.fault self.call self.round number }
    {
        let Halt { fault, call, round } = self;
        PlanFault::NoRoom {
            fault,
            call,
            round,
            number,
        }
    }

    /// The fault of a plan, while a move was worked on.
    pub fn in_move(self, number: u8) -> PlanFault
        ensures { result ≡ no_room self.fault self.call self.round (Some number) }
    {
        self.during(Some(number))
    }
}

/// The fault of a plan, where no move is worked on.
impl From<Halt> for PlanFault {
    ghost from_gives = { λ x y. y ≡ no_room x.fault x.call x.round None };

    fn from(halt: Halt) -> PlanFault {
        halt.during(None)
    }
}

impl PlanFault {
    /// The number of the refusal.
    pub fn number(&self) -> u8
        ensures value { result ≡ the_number self.now }
    {
        // By a match, for the variants hold values, and such an enum is not cast to its discriminant.
        match self {
            PlanFault::ShapesDiffer => 17,
            PlanFault::NoRoom { fault, .. } => fault.number(),
            PlanFault::SheetShort { .. } => 19,
        }
    }
}
