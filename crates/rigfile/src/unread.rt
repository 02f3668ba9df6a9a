ghost use Rattle.std.specs.Prelude.{◌≡◌, vec_len, vec_items, replicate, None};
ghost use Rattle.rigfile.specs.Reading.{untaken};

use moves::entry::Move;
use moves::fault::RigFault;
use std::error::Error;
use std::fmt;

/// Why a file is not read.
#[derive(Clone, Copy, PartialEq, Eq, Debug)]
pub enum ReadFault {
    /// The bytes have not the frame of a rig file.
    BadFrame,
    /// Open refuses the devices, the scene or the table of slots.
    NotOpened(RigFault),
    /// Want refuses the masks.
    NotWanted(RigFault),
    /// Add refuses a move, which begins at that byte.
    NotAdded { fault: RigFault, byte: usize },
}

impl ReadFault {
    /// The number under which the refusal is known.
    pub fn number(&self) -> u8
        ensures { result ≡ (untaken self.now).number }
    {
        match self {
            ReadFault::BadFrame => 20,
            ReadFault::NotOpened(fault) => fault.number(),
            ReadFault::NotWanted(fault) => fault.number(),
            ReadFault::NotAdded { fault, .. } => fault.number(),
        }
    }

    /// The byte where the move begins that add refuses, or 0.
    pub fn byte(&self) -> usize
        ensures { result ≡ (untaken self.now).byte }
    {
        match self {
            ReadFault::NotAdded { byte, .. } => *byte,
            _ => 0,
        }
    }
}

// What happened, where, and what would help, a line each.
impl fmt::Display for ReadFault {
    fn fmt<W: fmt::Write>(&self, f: &mut fmt::Formatter<W>) -> fmt::Result {
        match self {
            ReadFault::BadFrame => write!(
                f,
                "refused 20: the bytes are no rig file\nwhere: in version, zero byte, offsets, length, counts or the order of move numbers\nwhat would help: a file as it was written, whole and with nothing behind it"
            ),
            ReadFault::NotOpened(fault) => write!(
                f,
                "{fault}\nwhere: in the devices, the present scene or the table of slots\nwhat would help: other devices or another scene in the file, or a table of 1 to 255 slots"
            ),
            ReadFault::NotWanted(fault) => write!(
                f,
                "{fault}\nwhere: in the masks\nwhat would help: masks in the file that admit a setting of each device, and none that it has not"
            ),
            ReadFault::NotAdded { fault, byte } => write!(
                f,
                "{fault}\nwhere: in the move that begins at byte {byte}\nwhat would help: another move there, or a longer table of slots if it is the number that is too high"
            ),
        }
    }
}

impl Error for ReadFault {}

/// A refused read: why, and the table of slots, each of them vacant.
#[derive(Drop)]
pub struct Unread {
    pub fault: ReadFault,
    pub slots: Vec<Option<Move>>,
}

impl Unread {
    /// A refusal that makes every slot vacant.
    pub(crate) fn vacating(fault: ReadFault, mut slots: Vec<Option<Move>>) -> Unread
        ensures fault { result.fault ≡ fault }
        ensures vacant { vec_items result.slots ≡ replicate (vec_len slots) None }
    {
        slots.fill(None);
        Unread { fault, slots }
    }
}
