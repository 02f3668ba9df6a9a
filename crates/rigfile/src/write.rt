//! Write: a rig's file at the front of a buffer.
ghost use Rattle.std.specs.Prelude.{◌≡◌, length};
ghost use Rattle.format.specs.Files.{file};
ghost use Rattle.rig.specs.Rigs.{contents};
ghost use Rattle.rigfile.specs.Writing.{Room, Puts, Written};

use crate::fault::WriteFault;
use crate::sizes::*;
use crate::writer::Writer;
use rig::frame::Rig;

// Counts and the length go by `as`: the limits of a rig keep them within a byte and two.
impl Writer<'_> {
    /// Puts the file of a rig, which has so many bytes.
    fn rig(&mut self, rig: &Rig, total: u16)
        requires room { Room self.old (file (contents rig.now)) }
        requires whole { total ≡ length (file (contents rig.now)) }
        ensures { Puts self.old (file (contents rig.now)) self.new }
    {
        let settings = rig.settings();
        let slots = rig.slots();
        self.header(settings.len() as u8, in_use(slots) as u8, total);
        self.devices(settings, rig.names());
        self.bytes(rig.scene());
        self.bytes(rig.masks());
        self.slots(slots);
    }
}

/// Puts the rig's file at the front of the buffer, keeps the bytes behind it, and answers how long the file is. A
/// buffer that is shorter than the file is left as it was.
pub fn write(rig: &Rig, buffer: &mut [u8]) -> Result<usize, WriteFault>
    ensures { Written (file (contents rig.now)) result buffer.old buffer.new }
{
    let needed = file_size(rig);
    if buffer.len() < needed {
        return Err(WriteFault { needed });
    }
    let mut file = Writer { buffer, at: 0 };
    file.rig(rig, needed as u16);
    Ok(needed)
}
