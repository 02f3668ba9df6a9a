ghost use Rattle.std.specs.Prelude.{◌≡◌};
ghost use Rattle.diagram.specs.Openings.{number as the_number};

use std::error::Error;
use std::fmt;

/// Why a diagram shelf does not open.
#[derive(Clone, Copy, PartialEq, Eq, Debug)]
pub enum OpenFault {
    /// The number of devices, or of settings of one, is outside its limits.
    CountsOff,
    /// The number of node slots is outside its limits.
    SlotsOff,
    /// There is no memory for so many slots.
    NoMemory,
}

impl OpenFault {
    /// The number of the refusal; want of memory is no refusal of the rules, and has none.
    pub fn number(self) -> Option<u8>
        ensures value { result ≡ the_number self }
    {
        match self {
            OpenFault::CountsOff => Some(1),
            OpenFault::SlotsOff => Some(3),
            OpenFault::NoMemory => None,
        }
    }
}

impl fmt::Display for OpenFault {
    fn fmt<W: fmt::Write>(&self, f: &mut fmt::Formatter<W>) -> fmt::Result {
        match self {
            OpenFault::CountsOff => {
                write!(
                    f,
                    "refused 1: a shelf has 1 to 12 devices of 2 to 8 settings"
                )
            }
            OpenFault::SlotsOff => write!(
                f,
                "refused 3: a diagram shelf has 1 to 65535 node slots"
            ),
            OpenFault::NoMemory => write!(f, "no memory for the node slots: try with fewer"),
        }
    }
}

impl Error for OpenFault {}
