ghost use Rattle.std.specs.Prelude.{◌≡◌};
ghost use Rattle.embed.specs.declared.unperformed.Unperformed.TheVariants.{NoRig, NoRun, Short};

use crate::unfiled::Unfiled;
use crate::unrun::Unrun;
use rigfile::fault::WriteFault;

/// Why no file is written of the rig in a file.
#[derive(Clone, Copy, PartialEq, Eq, Debug)]
pub enum Unperformed {
    /// The file gives no rig.
    NoRig(Unfiled),
    /// The run is not performed.
    NoRun(Unrun),
    /// The buffer is shorter than the file to be written.
    Short(WriteFault),
}

impl From<Unfiled> for Unperformed {
    ghost from_gives = { λ x y. y ≡ NoRig x };

    fn from(fault: Unfiled) -> Unperformed {
        Unperformed::NoRig(fault)
    }
}

impl From<Unrun> for Unperformed {
    ghost from_gives = { λ x y. y ≡ NoRun x };

    fn from(fault: Unrun) -> Unperformed {
        Unperformed::NoRun(fault)
    }
}

impl From<WriteFault> for Unperformed {
    ghost from_gives = { λ x y. y ≡ Short x };

    fn from(fault: WriteFault) -> Unperformed {
        Unperformed::Short(fault)
    }
}
