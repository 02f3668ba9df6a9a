//! The scenes of a plain rig one by one, and the steps between them, judged from the plain data alone.
ghost use Rattle.std.specs.Prelude.{◌≡◌, vec_len};

use crate::plain::{PlainMove, PlainRig, PlainSurcharge};
use crate::scenes::{scene_count, setting_at, share};
use moves::pair::Pair;
use std::alloc::{AllocError, Global};

/// More devices than a trial's rig has.
const MOST_DEVICES: usize = 6;

/// The setting of each device, and 0 past the last.
type Scene = [u8; MOST_DEVICES];

/// A move made in a scene: its number, its time there, and the place of the scene after it.
#[derive(Clone, Copy)]
pub struct Step {
    pub number: u8,
    pub time: u64,
    pub end: usize,
}

/// All scenes by their places, each with the steps from it by rising number.
#[derive(Drop)]
pub struct Graph {
    pub present: usize,
    pub wanted: Vec<bool>,
    pub steps: Vec<Vec<Step>>,
}

impl Graph {
    /// How many scenes there are.
    pub fn size(&self) -> usize
        ensures { result ≡ vec_len self.now.steps }
    {
        self.steps.len()
    }

    /// The steps from a scene.
    pub fn steps_from(&self, scene: usize) -> &[Step] {
        match self.steps.get(scene) {
            Some(steps) => steps.as_slice(),
            None => &[],
        }
    }

    /// Whether a scene is wanted.
    pub fn is_wanted(&self, scene: usize) -> bool {
        self.wanted.get(scene).copied().unwrap_or(false)
    }
}

/// The scene at a place.
fn scene_at(settings: &[u8], place: usize) -> Scene {
    let mut scene = [0; MOST_DEVICES];
    for (device, setting) in scene.iter_mut().enumerate().take(settings.len()) {
        *setting = u8::try_from(setting_at(settings, place, device)).unwrap_or(0);
    }
    scene
}

/// The place of a scene.
fn place_of(settings: &[u8], scene: &[u8]) -> usize {
    let mut place = 0usize;
    for (device, setting) in scene.iter().enumerate().take(settings.len()) {
        place = place.saturating_add(share(settings, device, usize::from(*setting)));
    }
    place
}

fn holds(pair: &Pair, scene: &Scene) -> bool {
    scene
        .get(usize::from(pair.device))
        .is_some_and(|setting| *setting == pair.setting)
}

fn all_hold(pairs: &[Pair], scene: &Scene) -> bool {
    pairs.iter().all(|pair| holds(pair, scene))
}

/// The extra times of the surcharges whose tests all hold.
fn extras(surcharges: &[PlainSurcharge], scene: &Scene) -> u64 {
    let mut sum = 0u64;
    for surcharge in surcharges {
        if all_hold(surcharge.tests.as_slice(), scene) {
            sum = sum.saturating_add(u64::from(surcharge.extra));
        }
    }
    sum
}

/// The scene after the effects.
fn after(effects: &[Pair], scene: &Scene) -> Scene {
    let mut next = *scene;
    for effect in effects {
        if let Some(setting) = next.get_mut(usize::from(effect.device)) {
            *setting = effect.setting;
        }
    }
    next
}

/// The step by a move, if its conditions hold.
fn step_by(settings: &[u8], entry: &PlainMove, scene: &Scene) -> Option<Step> {
    if !all_hold(entry.conditions.as_slice(), scene) {
        return None;
    }
    let extra = extras(entry.surcharges.as_slice(), scene);
    Some(Step {
        number: entry.number,
        time: extra.saturating_add(u64::from(entry.base)),
        end: place_of(settings, &after(entry.effects.as_slice(), scene)),
    })
}

fn steps_in(alloc: Global, rig: &PlainRig, scene: &Scene) -> Result<Vec<Step>, AllocError> {
    let mut steps = Vec::new(alloc);
    for entry in &rig.moves {
        if let Some(step) = step_by(rig.settings.as_slice(), entry, scene) {
            steps.push(step)?;
        }
    }
    Ok(steps)
}

/// Whether each device's mask has the bit of its setting: a setting is admitted if halving the mask so often leaves it odd.
fn is_wanted(masks: &[u8], scene: &Scene) -> bool {
    masks.iter().zip(scene).all(|(mask, setting)| mask.wrapping_shr(u32::from(*setting)) % 2 == 1)
}

/// Goes through all scenes of a rig.
pub fn explored(alloc: Global, rig: &PlainRig) -> Result<Graph, AllocError> {
    let settings = rig.settings.as_slice();
    let mut wanted = Vec::new(alloc);
    let mut steps = Vec::new(alloc);
    for place in 0..scene_count(settings) {
        let scene = scene_at(settings, place);
        wanted.push(is_wanted(rig.masks.as_slice(), &scene))?;
        steps.push(steps_in(alloc, rig, &scene)?)?;
    }
    Ok(Graph {
        present: place_of(settings, rig.scene.as_slice()),
        wanted,
        steps,
    })
}
