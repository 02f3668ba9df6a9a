//! What a call says that writes a file, in numbers.
ghost use Rattle.std.specs.Prelude.{◌≡◌};
ghost use Rattle.embed.specs.Told.{file_told, unperformed_told};

use crate::ran::Ran;
use crate::unfiled::Unfiled;
use crate::unperformed::Unperformed;
use crate::unrun::Unrun;

/// What a call says that writes a file. Values that an ending does not name are 0.
// Numbers where enums belong: C has none of these enums, and passes a struct of numbers.
#[repr(C)]
#[derive(Clone, Copy)]
pub struct FileAnswer {
    /// 0 where the file is written; 1 where the file handed in is refused, 2 where a move of the run is, 3 where the buffer
    /// is too short, 4 where the run is too long; 5 for want of memory.
    pub ending: u8,
    /// The number of the refusal.
    pub refusal: u8,
    /// The byte at which the refused move begins in the file, or 0; or the place of the refused move in the run.
    pub place: usize,
    /// How many bytes the file has that is written, or is to be.
    pub length: usize,
    /// How long the run takes, in tenths of a second.
    pub time: u64,
}

const NOTHING: FileAnswer = FileAnswer {
    ending: 0,
    refusal: 0,
    place: 0,
    length: 0,
    time: 0,
};

/// What a call says that writes no file.
fn unperformed(fault: Unperformed) -> FileAnswer
    ensures { result ≡ unperformed_told fault }
{
    match fault {
        Unperformed::NoRig(Unfiled::NoMemory) => FileAnswer {
            ending: 5,
            ..NOTHING
        },
        Unperformed::NoRig(Unfiled::Refused { number, byte }) => FileAnswer {
            ending: 1,
            refusal: number,
            place: byte,
            ..NOTHING
        },
        Unperformed::NoRun(Unrun::TooLong) => FileAnswer {
            ending: 4,
            ..NOTHING
        },
        Unperformed::NoRun(Unrun::Refused { fault, place }) => FileAnswer {
            ending: 2,
            refusal: fault.number(),
            place,
            ..NOTHING
        },
        Unperformed::Short(fault) => FileAnswer {
            ending: 3,
            refusal: fault.number(),
            length: fault.needed,
            ..NOTHING
        },
    }
}

/// What a call says that writes a file.
impl From<Result<Ran, Unperformed>> for FileAnswer {
    ghost from_gives = { λ x y. y ≡ file_told x };

    fn from(answer: Result<Ran, Unperformed>) -> FileAnswer {
        match answer {
            Ok(Ran { length, time }) => FileAnswer {
                length,
                time,
                ..NOTHING
            },
            Err(fault) => unperformed(fault),
        }
    }
}
