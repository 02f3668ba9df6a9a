ghost use Rattle.std.specs.Prelude.{◌≡◌, ◌+◌, ◌^◌, ◌<◌, ◌≤◌, true, false, length, take, drop, MatchOption, slice_index};
ghost use Rattle.model.specs.Limits.{most_devices, most_settings};
ghost use Rattle.model.specs.Refusals.{answer};
ghost use Rattle.model.specs.Scenes.{shape_off, size, rank};
ghost use Rattle.model.specs.Shelves.{scene_checks};
ghost use Rattle.shelf.specs.Faults.{numbered};
ghost use Rattle.shelf.specs.Shapes.{shape_of};

use crate::counts::{place, scenes};
use crate::fault::ShelfFault;
use crate::shape::Shape;
use lists::counts::shape_off;
use lists::short::Short;

impl Shape {
    /// The shape with these counts of settings, or none if one of them is outside its limits.
    pub fn of(settings: &[u8]) -> Option<Shape>
        ensures value { MatchOption result (shape_off settings.now ≡ true) (λ s. (shape_off settings.now ≡ false) × (shape_of s ≡ settings.now)) }
    {
        if shape_off(settings) {
            return None;
        }
        Some(Shape {
            settings: Short::of(settings, 0)?,
            scenes: scenes(settings),
        })
    }

    /// The number of settings of each device.
    pub fn settings(&self) -> &[u8]
        ensures value { result.now ≡ shape_of self.now }
    {
        self.settings.as_slice()
    }

    /// How many devices there are.
    pub fn devices(&self) -> usize
        ensures value { result ≡ length (shape_of self.now) }
    {
        self.settings().len()
    }

    /// How many settings a device has.
    pub fn count(&self, device: usize) -> usize
        requires low { device < length (shape_of self.now) }
        ensures value { result ≡ slice_index (shape_of self.now) device }
        ensures bound { result ≤ most_settings }
    {
        usize::from(self.settings()[device])
    }

    /// How many scenes there are.
    pub fn scenes(&self) -> usize
        ensures value { result ≡ size (shape_of self.now) }
        ensures bound { result ≤ most_settings ^ most_devices }
    {
        self.scenes
    }

    /// The place of a scene among all of them.
    pub fn place(&self, scene: &[u8]) -> Result<usize, ShelfFault>
        ensures answer { numbered result ≡ answer (scene_checks (shape_of self.now) scene.now) (rank (shape_of self.now) scene.now) }
    {
        place(self.settings(), scene)
    }

    /// How many scenes the devices before one have.
    pub fn blocks(&self, device: usize) -> usize
        requires low { device < length (shape_of self.now) }
        ensures value { result ≡ size (take device (shape_of self.now)) }
    {
        scenes(&self.settings()[..device])
    }

    /// How many scenes the devices after one have.
    pub fn stride(&self, device: usize) -> usize
        requires low { device < length (shape_of self.now) }
        ensures value { result ≡ size (drop (device + 1) (shape_of self.now)) }
    {
        scenes(&self.settings()[device + 1..])
    }
}
