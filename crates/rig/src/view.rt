//! What a rig holds, to be read.
ghost use Rattle.std.specs.Prelude.{◌≡◌, map};
ghost use Rattle.model.specs.Calls.{Lawful};
ghost use Rattle.moves.specs.Views.{slot_of};
ghost use Rattle.rig.specs.Rigs.{contents};

use crate::frame::Rig;
use lists::names::Name;
use moves::entry::Move;

impl Rig {
    /// How many settings each device has. Whatever a rig holds is lawful.
    pub fn settings(&self) -> &[u8]
        ensures value { result.now ≡ (contents self.now).settings }
        ensures lawful { Lawful (contents self.now) }
    {
        self.devices.settings.as_slice()
    }

    /// The name of each device: eight bytes.
    pub fn names(&self) -> &[Name]
        ensures { result.now ≡ (contents self.now).names }
    {
        self.devices.names.as_slice()
    }

    /// The present scene.
    pub fn scene(&self) -> &[u8]
        ensures { result.now ≡ (contents self.now).scene }
    {
        self.devices.scene.as_slice()
    }

    /// The settings that are wanted of each device: a bit for each.
    pub fn masks(&self) -> &[u8]
        ensures { result.now ≡ (contents self.now).masks }
    {
        self.devices.masks.as_slice()
    }

    /// The table of moves, by their numbers.
    pub fn slots(&self) -> &[Option<Move>]
        ensures { map slot_of result.now ≡ (contents self.now).slots }
    {
        self.slots.as_slice()
    }
}
