//! The header and the devices of a file.
ghost use Rattle.std.specs.Prelude.{◌≡◌, ◌∷◌, length};
ghost use Rattle.format.specs.Files.{header, devices as devices_bytes};
ghost use Rattle.rigfile.specs.Writing.{Room, Puts};

use crate::writer::Writer;
use lists::names::Name;

impl Writer<'_> {
    /// Puts the header of a file with so many devices, moves and bytes.
    pub(crate) fn header(&mut self, devices: u8, moves: u8, total: u16)
        requires { Room self.old (header devices moves total) }
        ensures { Puts self.old (header devices moves total) self.new }
    {
        let count = u16::from(devices);
        self.bytes(&[1, devices, moves, 0]);
        self.number(12);
        self.number(12 + 9 * count);
        self.number(12 + 11 * count);
        self.number(total);
    }

    fn device(&mut self, settings: u8, name: &Name)
        requires { Room self.old (settings ∷ name.now) }
        ensures { Puts self.old (settings ∷ name.now) self.new }
    {
        self.bytes(&[settings]);
        self.bytes(name);
    }

    pub(crate) fn devices(&mut self, settings: &[u8], names: &[Name])
        requires room { Room self.old (devices_bytes settings.now names.now) }
        requires named { length names.now ≡ length settings.now }
        ensures { Puts self.old (devices_bytes settings.now names.now) self.new }
    {
        for (count, name) in settings.iter().zip(names) {
            self.device(*count, name);
        }
    }
}
