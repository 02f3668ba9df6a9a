ghost use Rattle.std.specs.Prelude.{◌≡◌};
ghost use Rattle.planfile.specs.Failures.{number as the_number};
ghost use Rattle.planfile.specs.declared.failure.Failure.TheVariants as failure;

use diagram::open_fault::OpenFault;
use rigfile::unread::{ReadFault, Unread};
use std::alloc::{AllocError, AllocFailed};
use std::io;
use steps::fault::PlanFault;

/// Why a rig file is not planned.
#[derive(Drop)]
pub enum Failure {
    /// The input could not be read.
    Input(io::Error),
    /// The input has more bytes than are read.
    InputLong,
    /// The bytes are no rig file, or a call refused what they hold.
    Unread(ReadFault),
    /// No shelf was opened.
    Unopened(OpenFault),
    /// There was no memory left.
    NoMemory,
    /// The plan was sent back.
    Unplanned(PlanFault),
}

impl Failure {
    /// The number of the refusal. An input that cannot be read and want of memory are no refusals of the rules, and have
    /// none.
    pub fn number(&self) -> Option<u8>
        ensures value { result ≡ the_number self.now }
    {
        match self {
            Failure::InputLong => Some(20),
            Failure::Unread(fault) => Some(fault.number()),
            Failure::Unopened(fault) => fault.number(),
            Failure::Unplanned(fault) => Some(fault.number()),
            Failure::Input(_) | Failure::NoMemory => None,
        }
    }
}

impl From<io::Error> for Failure {
    ghost from_gives = { λ x y. y ≡ failure.Input x };

    fn from(error: io::Error) -> Failure {
        Failure::Input(error)
    }
}

/// The slots that a refused file hands back are let go.
impl From<Unread> for Failure {
    ghost from_gives = { λ x y. y ≡ failure.Unread x.fault };

    fn from(unread: Unread) -> Failure {
        Failure::Unread(unread.fault)
    }
}

impl From<OpenFault> for Failure {
    ghost from_gives = { λ x y. y ≡ failure.Unopened x };

    fn from(fault: OpenFault) -> Failure {
        Failure::Unopened(fault)
    }
}

impl From<AllocError> for Failure {
    ghost from_gives = { λ _ y. y ≡ failure.NoMemory };

    fn from(_error: AllocError) -> Failure {
        Failure::NoMemory
    }
}

impl<T: Drop> From<AllocFailed<T>> for Failure {
    ghost from_gives = { λ _ y. y ≡ failure.NoMemory };

    fn from(_failed: AllocFailed<T>) -> Failure {
        Failure::NoMemory
    }
}

impl From<PlanFault> for Failure {
    ghost from_gives = { λ x y. y ≡ failure.Unplanned x };

    fn from(fault: PlanFault) -> Failure {
        Failure::Unplanned(fault)
    }
}
