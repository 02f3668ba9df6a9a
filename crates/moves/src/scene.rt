//! What holds in a scene, what a move takes in it, and what it makes of it.
ghost use Rattle.std.specs.Prelude.{◌≡◌, ◌≤◌, map};
ghost use Rattle.lists.specs.Shorts.{listed};
ghost use Rattle.model.specs.Moves.{holds as holds_in, all_hold, charged, time as time_of, applied};
ghost use Rattle.moves.specs.Views.{pair_of, pairs_of, surcharge_of, move_of};

use crate::entry::{Move, Surcharge};
use crate::pair::Pair;
use lists::limits::*;
use lists::short::Short;

impl Pair {
    /// Whether the device has the setting in the scene.
    pub fn holds(self, scene: &[u8]) -> bool
        ensures { result ≡ holds_in scene.now (pair_of self) }
    {
        scene
            .get(usize::from(self.device))
            .is_some_and(|setting| *setting == self.setting)
    }
}

/// Whether every pair holds in the scene.
pub fn every_holds(pairs: &[Pair], scene: &[u8]) -> bool
    ensures { result ≡ all_hold scene.now (pairs_of pairs.now) }
{
    pairs.iter().all(|pair| pair.holds(scene))
}

impl Surcharge {
    /// What it adds in the scene.
    fn adds(&self, scene: &[u8]) -> u32
        ensures value { result ≡ charged scene.now (surcharge_of self.now) }
        ensures bound { result ≤ 65535 }
    {
        if every_holds(self.tests.as_slice(), scene) {
            u32::from(self.extra)
        } else {
            0
        }
    }
}

impl Move {
    /// Its time in the scene before it, in tenths of a second.
    // A `for` loop over the surcharges, by a rule of the project.
    pub fn time(&self, scene: &[u8]) -> u32
        ensures { result ≡ time_of (move_of self.now) scene.now }
    {
        let mut total = u32::from(self.base);
        for surcharge in self.surcharges.as_slice() {
            total += surcharge.adds(scene);
        }
        total
    }
}

/// Each effect sets its device, in order.
pub fn apply(effects: &[Pair], scene: &mut Short<u8, MOST_DEVICES>)
    ensures { listed scene.new ≡ applied (pairs_of effects.now) (listed scene.old) }
{
    for effect in effects {
        scene.set(usize::from(effect.device), effect.setting);
    }
}
