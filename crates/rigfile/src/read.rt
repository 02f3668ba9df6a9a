//! Read: a rig from its file.
ghost use Rattle.std.specs.Prelude.{◌≡◌, ◌≤◌, length, vec_len};
ghost use Rattle.rig.specs.Rigs.{contents};
ghost use Rattle.rigfile.specs.Fronts.{Filled, Opened};
ghost use Rattle.rigfile.specs.Reading.{Answers, read_as, Vacated};

use crate::front::Front;
use crate::pairs::{paired, past};
use crate::taker::Taker;
use crate::unread::{ReadFault, Unread};
use framing::reader::Reader;
use moves::entry::Move;
use rig::frame::Rig;

impl Front<'_> {
    /// Takes masks and moves into a rig that was opened.
    fn fill(&self, rig: &mut Rig) -> Result<(), ReadFault>
        requires { length self.now.moves.now ≤ self.now.total }
        ensures answer { Filled self.now (contents rig.old) result (contents rig.new) }
        ensures as_many { length (contents rig.new).slots ≡ length (contents rig.old).slots }
    {
        let total = usize::from(self.total);
        rig.want(self.masks).map_err(ReadFault::NotWanted)?;
        let here = paired(self.moves).ok_or(ReadFault::BadFrame)?;
        let next = paired(past(self.moves, 1)).ok_or(ReadFault::BadFrame)?;
        let mut taker = Taker {
            reader: Reader { rest: self.moves },
            here: here.as_slice(),
            next: next.as_slice(),
        };
        taker.add_all(self.count, total, rig)
    }

    /// Takes the parts of a file into a table of slots.
    fn open(&self, slots: Vec<Option<Move>>) -> Result<Rig, Unread>
        requires { length self.now.moves.now ≤ self.now.total }
        ensures answer { Opened self.now (vec_len slots) (read_as result) }
        ensures vacated { Vacated slots result }
    {
        let settings = self.devices.settings;
        let names = self.devices.names;
        match Rig::open(settings.as_slice(), names.as_slice(), self.scene, slots) {
            Ok(mut rig) => match self.fill(&mut rig) {
                Ok(()) => Ok(rig),
                Err(fault) => Err(Unread::vacating(fault, rig.into_slots())),
            },
            Err(refused) => Err(Unread::vacating(
                ReadFault::NotOpened(refused.fault),
                refused.slots,
            )),
        }
    }
}

/// Reads a rig from its file into a table of slots that is handed over. A refusal hands the table back with every slot
/// vacant. Nothing is allocated.
pub fn read(bytes: &[u8], slots: Vec<Option<Move>>) -> Result<Rig, Unread>
    ensures answer { Answers bytes.now (vec_len slots) (read_as result) }
    ensures vacated { Vacated slots result }
{
    match Front::of(bytes) {
        Some(front) => front.open(slots),
        None => Err(Unread::vacating(ReadFault::BadFrame, slots)),
    }
}
