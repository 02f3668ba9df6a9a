ghost use Rattle.std.specs.Prelude.{◌≡◌};
ghost use Rattle.embed.specs.declared.unplanned.Unplanned.TheVariants.{NoRig, NoShelf, SentBack};

use crate::unfiled::Unfiled;
use diagram::open_fault::OpenFault;
use steps::fault::PlanFault;

/// Why the rig in a file is not planned.
#[derive(Clone, Copy, PartialEq, Eq, Debug)]
pub enum Unplanned {
    /// The file gives no rig.
    NoRig(Unfiled),
    /// The shelf does not open.
    NoShelf(OpenFault),
    /// The plan is sent back.
    SentBack(PlanFault),
}

impl From<Unfiled> for Unplanned {
    ghost from_gives = { λ x y. y ≡ NoRig x };

    fn from(fault: Unfiled) -> Unplanned {
        Unplanned::NoRig(fault)
    }
}

impl From<OpenFault> for Unplanned {
    ghost from_gives = { λ x y. y ≡ NoShelf x };

    fn from(fault: OpenFault) -> Unplanned {
        Unplanned::NoShelf(fault)
    }
}

impl From<PlanFault> for Unplanned {
    ghost from_gives = { λ x y. y ≡ SentBack x };

    fn from(fault: PlanFault) -> Unplanned {
        Unplanned::SentBack(fault)
    }
}
