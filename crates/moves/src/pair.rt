ghost use Rattle.std.specs.Prelude.{◌≡◌, ◌==◌};

use lists::repeats::Keyed;

/// A device and one of its settings. It holds in a scene in which the device has that setting.
#[derive(Clone, Copy)]
pub struct Pair {
    pub device: u8,
    pub setting: u8,
}

// No device may stand twice in a list of pairs.
impl Keyed for Pair {
    ghost same = { λ a b. (a.device == b.device) };

    fn has_key_of(&self, other: &Pair) -> bool {
        self.device == other.device
    }
}
