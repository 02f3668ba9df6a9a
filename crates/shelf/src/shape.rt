ghost use Rattle.std.specs.Prelude.{◌≡◌, false};
ghost use Rattle.model.specs.Scenes.{shape_off, size};
ghost use Rattle.lists.specs.Shorts.{listed};

use lists::limits::MOST_DEVICES;
use lists::short::Short;

/// The number of settings of each device, each within its limits, and how many scenes that gives.
#[derive(Clone, Copy)]
pub struct Shape {
    settings: Short<u8, MOST_DEVICES>,
    scenes: usize,
    ghost legal: { shape_off (listed settings) ≡ false },
    ghost counted: { scenes ≡ size (listed settings) },
}

pub mod parts;
