//! The moves of a file, added to a rig.
ghost use Rattle.std.specs.Prelude.{◌≡◌, ◌≤◌, ◌-◌, length, IfOk};
ghost use Rattle.rig.specs.Rigs.{contents};
ghost use Rattle.rigfile.specs.Taking.{Laid};
ghost use Rattle.rigfile.specs.Adding.{AddsNext, AddsAll};

use crate::taker::Taker;
use crate::unread::ReadFault;
use rig::frame::Rig;

impl Taker<'_> {
    /// Adds the next move of a file of so many bytes.
    fn add(&mut self, total: usize, rig: &mut Rig) -> Result<(), ReadFault>
        requires laid { Laid self.old }
        requires within { length self.old.reader.rest.now ≤ total }
        ensures answer { AddsNext (total - length self.old.reader.rest.now) self.old.reader.rest.now (contents rig.old) result self.new.reader.rest.now (contents rig.new) }
        ensures left { IfOk result (λ _. Laid self.new × (length self.new.reader.rest.now ≤ length self.old.reader.rest.now)) }
        ensures as_many { length (contents rig.new).slots ≡ length (contents rig.old).slots }
    {
        let byte = total - self.reader.rest.len();
        let entry = self.entry().ok_or(ReadFault::BadFrame)?;
        match rig.add(usize::from(entry.head.number), &entry.draft()) {
            Ok(()) => Ok(()),
            Err(fault) => Err(ReadFault::NotAdded { fault, byte }),
        }
    }

    /// Adds so many moves of a file of so many bytes. The first that the rig refuses ends it.
    pub(crate) fn add_all(
        &mut self,
        count: u8,
        total: usize,
        rig: &mut Rig,
    ) -> Result<(), ReadFault>
        requires laid { Laid self.old }
        requires within { length self.old.reader.rest.now ≤ total }
        ensures answer { AddsAll count (total - length self.old.reader.rest.now) self.old.reader.rest.now (contents rig.old) result (contents rig.new) }
        ensures as_many { length (contents rig.new).slots ≡ length (contents rig.old).slots }
    {
        for _ in 0..count {
            self.add(total, rig)?;
        }
        Ok(())
    }
}
