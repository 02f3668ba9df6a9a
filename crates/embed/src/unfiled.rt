ghost use Rattle.std.specs.Prelude.{◌≡◌};
ghost use Rattle.rigfile.specs.Reading.{untaken};
ghost use Rattle.embed.specs.declared.unfiled.Unfiled.TheVariants.{Refused};

use rigfile::unread::ReadFault;

/// Why a file gives no rig.
#[derive(Clone, Copy, PartialEq, Eq, Debug)]
pub enum Unfiled {
    /// There is no memory for a table of moves.
    NoMemory,
    /// The file is refused: the number, and the byte where the refused move begins, or 0.
    Refused { number: u8, byte: usize },
}

impl From<ReadFault> for Unfiled {
    ghost from_gives = { λ x y. y ≡ Refused (untaken x).number (untaken x).byte };

    fn from(fault: ReadFault) -> Unfiled {
        Unfiled::Refused {
            number: fault.number(),
            byte: fault.byte(),
        }
    }
}
