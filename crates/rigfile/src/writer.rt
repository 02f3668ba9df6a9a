//! Bytes put into a buffer, one after another.
ghost use Rattle.std.specs.Prelude.{[], ◌∷◌};
ghost use Rattle.std.specs.List.{flat_map};
ghost use Rattle.format.specs.Bytes.{two};
ghost use Rattle.rigfile.specs.Writing.{Room, Puts, pair_bytes};

use moves::pair::Pair;

/// A buffer, and where its next byte is put.
// Not the rest of it, cut down by `split_off_mut`: no proof knows what the buffer holds once a piece that was cut off it is
// written.
#[derive(Drop)]
pub(crate) struct Writer<'a> {
    pub(crate) buffer: &'a mut [u8],
    pub(crate) at: usize,
}

impl Writer<'_> {
    pub(crate) fn bytes(&mut self, bytes: &[u8])
        requires { Room self.old bytes.now }
        ensures { Puts self.old bytes.now self.new }
    {
        let start = self.at;
        let end = start + bytes.len();
        self.buffer[start..end].copy_from_slice(bytes);
        self.at = end;
    }

    /// Puts a number of two bytes, the low byte first.
    pub(crate) fn number(&mut self, number: u16)
        requires { Room self.old (two number) }
        ensures { Puts self.old (two number) self.new }
    {
        self.bytes(&number.to_le_bytes());
    }

    fn pair(&mut self, pair: Pair)
        requires { Room self.old (pair_bytes pair) }
        ensures { Puts self.old (pair_bytes pair) self.new }
    {
        self.bytes(&[pair.device, pair.setting]);
    }

    pub(crate) fn pairs(&mut self, pairs: &[Pair])
        requires { Room self.old (flat_map pair_bytes pairs.now) }
        ensures { Puts self.old (flat_map pair_bytes pairs.now) self.new }
    {
        for pair in pairs {
            self.pair(*pair);
        }
    }
}
