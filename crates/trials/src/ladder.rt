//! Rigs each of whose moves sets one device on by one, from all settings 0 to all last settings.
ghost use Rattle.std.specs.Prelude.{◌≡◌, ◌-◌};

use crate::devices::some_name;
use crate::plain::{PlainMove, PlainRig};
use crate::random_times::{some_greatest, some_surcharges, some_time};
use crate::sequence::Sequence;
use moves::pair::Pair;
use std::alloc::{AllocError, Global};

/// What setting a device on does to the devices before it.
#[derive(Clone, Copy)]
pub enum Ladder {
    /// Nothing: many runs are equally quick.
    Free,
    /// They must be at their last settings, and go back to 0: the rig counts through all its scenes, so that runs are
    /// long and rounds are many.
    Counting,
}

/// A device at a setting.
fn at(device: usize, setting: u8) -> Pair {
    let device = u8::try_from(device).unwrap_or(u8::MAX);
    Pair { device, setting }
}

/// The last setting of a device of so many.
fn last(settings: u8) -> u8
    ensures { result ≡ settings - 1 }
{
    settings.saturating_sub(1)
}

/// The devices that go back to 0 when a device is set on.
fn carried(ladder: Ladder, settings: &[u8], device: usize) -> &[u8] {
    match ladder {
        Ladder::Free => &[],
        Ladder::Counting => settings.get(0..device).unwrap_or(&[]),
    }
}

/// The pairs of the devices that go back, at their last settings and at 0.
fn carries(alloc: Global, carried: &[u8]) -> Result<(Vec<Pair>, Vec<Pair>), AllocError> {
    let mut lasts = Vec::new(alloc);
    let mut zeros = Vec::new(alloc);
    for (device, settings) in carried.iter().enumerate() {
        lasts.push(at(device, last(*settings)))?;
        zeros.push(at(device, 0))?;
    }
    Ok((lasts, zeros))
}

/// The moves that set a device on by one.
fn climbs(
    alloc: Global,
    draws: &mut Sequence,
    ladder: Ladder,
    settings: &[u8],
    device: usize,
    moves: &mut Vec<PlainMove>,
) -> Result<(), AllocError> {
    let greatest = some_greatest(draws);
    let carried = carried(ladder, settings, device);
    let count = settings.get(device).copied().unwrap_or(0);
    for from in 0..last(count) {
        let (mut conditions, mut effects) = carries(alloc, carried)?;
        conditions.push(at(device, from))?;
        effects.push(at(device, from.saturating_add(1)))?;
        moves.push(PlainMove {
            number: u8::try_from(moves.len()).unwrap_or(u8::MAX),
            conditions,
            effects,
            base: some_time(draws, greatest),
            surcharges: some_surcharges(alloc, draws, settings, greatest)?,
        })?;
    }
    Ok(())
}

/// The moves of all devices.
fn all_climbs(
    alloc: Global,
    draws: &mut Sequence,
    ladder: Ladder,
    settings: &[u8],
) -> Result<Vec<PlainMove>, AllocError> {
    let mut moves = Vec::new(alloc);
    for device in 0..settings.len() {
        climbs(alloc, draws, ladder, settings, device, &mut moves)?;
    }
    Ok(moves)
}

/// A rig of two to four devices that are set on by one.
pub fn climbing(
    alloc: Global,
    draws: &mut Sequence,
    ladder: Ladder,
) -> Result<PlainRig, AllocError> {
    let mut settings = Vec::new(alloc);
    let mut names = Vec::new(alloc);
    let mut masks = Vec::new(alloc);
    for device in 0..draws.byte_below(3).saturating_add(2) {
        let count = draws.byte_below(3).saturating_add(2);
        settings.push(count)?;
        names.push(some_name(draws, device))?;
        masks.push(1u8.wrapping_shl(u32::from(last(count))))?;
    }
    let scene = vec![in alloc; 0; settings.len()]?;
    let moves = all_climbs(alloc, draws, ladder, settings.as_slice())?;
    let slots = u8::try_from(moves.len()).unwrap_or(u8::MAX);
    Ok(PlainRig {
        settings,
        names,
        scene,
        masks,
        slots,
        moves,
    })
}
