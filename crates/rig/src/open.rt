//! Open: a rig with every slot vacant and every setting wanted; and a rig given up for its table.
ghost use Rattle.std.specs.Prelude.{◌≡◌, ◌≤◌, false, map, length, vec_items, vec_len, MatchOption};
ghost use Rattle.lists.specs.Shorts.{listed};
ghost use Rattle.model.specs.Limits.{least_settings, most_settings};
ghost use Rattle.model.specs.Scenes.{shape_off};
ghost use Rattle.model.specs.Masks.{all_of};
ghost use Rattle.moves.specs.Views.{slot_of};
ghost use Rattle.rig.specs.Openings.{Stood, Opened};
ghost use Rattle.rig.specs.Rigs.{contents};

use crate::devices::Devices;
use crate::frame::Rig;
use crate::opening::judge_opening;
use crate::unopened::Unopened;
use lists::limits::*;
use lists::names::Name;
use lists::short::Short;
use moves::entry::Move;
use moves::fault::RigFault;

/// The mask that admits every setting of a device with so many.
fn mask_of_all(settings: u8) -> u8
    requires some { least_settings ≤ settings }
    requires few { settings ≤ most_settings }
    ensures { result ≡ all_of settings }
{
    u8::MAX >> (8 - settings)
}

/// A mask for each device that admits all its settings.
fn all_masks(settings: &Short<u8, MOST_DEVICES>) -> Short<u8, MOST_DEVICES>
    requires { shape_off (listed settings.now) ≡ false }
    ensures { listed result ≡ map all_of (listed settings.now) }
{
    // A loop, since a bounded list has no `map`.
    let mut masks = *settings;
    for (device, count) in settings.as_slice().iter().enumerate() {
        masks.set(device, mask_of_all(*count));
    }
    masks
}

impl Devices {
    /// The devices of an opening that nothing is wrong with.
    // Settings, names and scene stay apart, as the call `open` takes them.
    fn open(
        settings: &[u8],
        names: &[Name],
        scene: &[u8],
        slots: usize,
    ) -> Result<Devices, RigFault>
        ensures { Stood settings.now names.now scene.now slots result }
    {
        judge_opening(settings, names, scene, slots)?;
        let settings = Short::of(settings, 0).ok_or(RigFault::CountsOff)?;
        let names = Short::of(names, [0; 8]).ok_or(RigFault::CountsOff)?;
        let scene = Short::of(scene, 0).ok_or(RigFault::CountsOff)?;
        let masks = all_masks(&settings);
        Ok(Devices {
            settings,
            names,
            scene,
            masks,
        })
    }
}

impl Rig {
    /// A rig of these devices over a table of move slots that is handed over. It makes every slot vacant and wants
    /// every setting. A refusal hands the table back as it was.
    pub fn open(
        settings: &[u8],
        names: &[Name],
        scene: &[u8],
        mut slots: Vec<Option<Move>>,
    ) -> Result<Rig, Unopened>
        ensures { Opened settings.now names.now scene.now slots result }
    {
        // No `map_err` and `?`: the closure would take the table that an accepted opening keeps.
        match Devices::open(settings, names, scene, slots.len()) {
            Ok(devices) => {
                slots.fill(None);
                Ok(Rig { devices, slots })
            }
            Err(fault) => Err(Unopened { fault, slots }),
        }
    }

    /// Gives the rig up for its table of moves.
    pub fn into_slots(self) -> Vec<Option<Move>>
        ensures { map slot_of (vec_items result) ≡ (contents self).slots }
    {
        self.slots
    }
}
