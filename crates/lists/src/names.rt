ghost use Rattle.std.specs.Prelude.{◌≡◌};
ghost use Rattle.model.specs.Calls.{same_name};

use crate::repeats::Keyed;

/// A device's name: eight bytes.
pub type Name = [u8; 8];

// No two devices may have the same name.
impl Keyed for [u8; 8] {
    ghost same = { same_name };

    fn has_key_of(&self, other: &[u8; 8]) -> bool {
        *self == *other
    }
}
