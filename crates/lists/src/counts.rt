//! Counts, and whether they lie within their limits.
ghost use Rattle.std.specs.Prelude.{◌≡◌, nat_le};
ghost use Rattle.model.specs.Limits.{outside};
ghost use Rattle.model.specs.Lists.{some, some_two};
ghost use Rattle.model.specs.Scenes.{shape_off as is_shape_off};

use crate::limits::*;

/// Whether a number lies below the least or above the most.
pub fn is_outside(least: u8, most: u8, number: u8) -> bool
    ensures { result ≡ outside least most number }
{
    !(least..=most).contains(&number)
}

/// Whether some number does.
pub fn some_outside(least: u8, most: u8, numbers: &[u8]) -> bool
    ensures { result ≡ some (outside least most) numbers.now }
{
    numbers
        .iter()
        .any(|number| is_outside(least, most, *number))
}

/// Whether there are too few or too many devices, or one has too few or too many settings.
pub fn shape_off(settings: &[u8]) -> bool
    ensures { result ≡ is_shape_off settings.now }
{
    // A cast, since no `From` leads from `usize` to `u8`; the number is 8.
    !(1..=MOST_DEVICES).contains(&settings.len())
        || some_outside(LEAST_SETTINGS, MOST_SETTINGS as u8, settings)
}

/// Whether some setting is too high for its device.
pub fn some_high(settings: &[u8], scene: &[u8]) -> bool
    ensures { result ≡ some_two nat_le settings.now scene.now }
{
    settings
        .iter()
        .zip(scene)
        .any(|(count, setting)| count <= setting)
}
