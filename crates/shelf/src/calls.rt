ghost use Rattle.std.specs.Prelude.{◌≡◌};
ghost use Rattle.model.specs.Shelves.{Meaning, Sound, does, done, wipes, wiped, compares, reads};
ghost use Rattle.model.specs.Shelves.{dial as a_dial, cheaper as a_cheaper, sum as a_sum, put as a_put};
ghost use Rattle.shelf.specs.Faults.{numbered};

use crate::fault::ShelfFault;
use lists::limits::MOST_SETTINGS;

/// A store of eight charts: functions from the scenes of one shape to a time, or never.
///
/// Each call is refused by the smallest number that applies, and a refusal alters no peg. Otherwise it alters no
/// peg but its target, or the one that it wipes.
pub trait Shelf {
    // The shape, the capacity, the fill's rule and what each peg carries, of which only the last changes.
    ghost meaning: { Self → Meaning };

    /// Hangs the chart that gives a scene the entry of the device's setting. Entries past its last setting are
    /// not read.
    fn dial(
        &mut self,
        target: u8,
        device: u8,
        entries: &[Option<u64>; MOST_SETTINGS],
    ) -> Result<(), ShelfFault>
        ensures answer { numbered result ≡ does (meaning self.old) (a_dial target device entries.now) }
        ensures left { meaning self.new ≡ done (meaning self.old) (a_dial target device entries.now) };

    /// Hangs the lesser of two charts at each scene, any time being less than never.
    fn cheaper(&mut self, target: u8, left: u8, right: u8) -> Result<(), ShelfFault>
        ensures answer { numbered result ≡ does (meaning self.old) (a_cheaper target left right) }
        ensures left { meaning self.new ≡ done (meaning self.old) (a_cheaper target left right) };

    /// Hangs the sum of two charts at each scene, never if either is never.
    fn sum(&mut self, target: u8, left: u8, right: u8) -> Result<(), ShelfFault>
        ensures answer { numbered result ≡ does (meaning self.old) (a_sum target left right) }
        ensures left { meaning self.new ≡ done (meaning self.old) (a_sum target left right) };

    /// Hangs the chart that gives a scene what the source gives once the device is at the setting.
    // The two apart, as a dial names its device: `Pair` is a part of a move, and shelves know no moves.
    fn put(&mut self, target: u8, source: u8, device: u8, setting: u8) -> Result<(), ShelfFault>
        ensures answer { numbered result ≡ does (meaning self.old) (a_put target source device setting) }
        ensures left { meaning self.new ≡ done (meaning self.old) (a_put target source device setting) };

    /// Makes a peg bare.
    fn wipe(&mut self, peg: u8) -> Result<(), ShelfFault>
        ensures answer { numbered result ≡ wipes (meaning self.old) peg }
        ensures left { meaning self.new ≡ wiped (meaning self.old) peg };

    /// Whether two pegs carry equal charts.
    fn same(&self, left: u8, right: u8) -> Result<bool, ShelfFault>
        ensures answer { numbered result ≡ compares (meaning self.now) left right };

    /// The time that a peg's chart gives a scene, or none.
    fn at(&self, peg: u8, scene: &[u8]) -> Result<Option<u64>, ShelfFault>
        ensures answer { numbered result ≡ reads (meaning self.now) peg scene.now };

    /// The number of settings of each device.
    fn shape(&self) -> &[u8]
        ensures answer { result.now ≡ (meaning self.now).shape };

    // Each chart has an entry for each scene, and no time above the greatest.
    ghost sound: { (s : Self) → Sound (meaning s) };
}
