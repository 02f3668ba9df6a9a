ghost use Rattle.std.specs.Prelude.{◌≡◌};

use std::error::Error;
use std::fmt;

/// Why a rig could not be written: the buffer is shorter than the file.
#[derive(Clone, Copy, PartialEq, Eq, Debug)]
pub struct WriteFault {
    /// How many bytes the file has.
    pub needed: usize,
}

impl WriteFault {
    /// The number under which the refusal is known.
    // A literal: a struct of one refusal has no discriminant.
    pub fn number(&self) -> u8
        ensures { result ≡ 19 }
    {
        19
    }
}

impl fmt::Display for WriteFault {
    fn fmt<W: fmt::Write>(&self, f: &mut fmt::Formatter<W>) -> fmt::Result {
        let number = self.number();
        let needed = self.needed;
        write!(
            f,
            "refused {number}: the buffer is shorter than the file, which has {needed} bytes"
        )
    }
}

impl Error for WriteFault {}
