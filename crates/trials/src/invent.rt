//! Random rigs: loose ones, whose moves have nothing to do with one another, and ladders.
use crate::devices::{some_mask, some_name};
use crate::ladder::{Ladder, climbing};
use crate::pairs::{add_pair, some_pairs};
use crate::plain::{PlainMove, PlainRig};
use crate::random_times::{some_greatest, some_surcharges, some_time};
use crate::sequence::Sequence;
use moves::pair::Pair;
use std::alloc::{AllocError, Global};

/// How many moves a rig has at most.
const MOST_MOVES: usize = 12;

/// Up to two conditions, and for some of the effects one of its device.
fn some_conditions(
    alloc: Global,
    draws: &mut Sequence,
    settings: &[u8],
    effects: &[Pair],
) -> Result<Vec<Pair>, AllocError> {
    let most = draws.below(3);
    let mut conditions = some_pairs(alloc, draws, settings, most)?;
    for effect in effects {
        if draws.once_in(2) {
            add_pair(draws, settings, usize::from(effect.device), &mut conditions)?;
        }
    }
    Ok(conditions)
}

/// A move of one or two devices.
fn some_move(
    alloc: Global,
    draws: &mut Sequence,
    settings: &[u8],
    number: u8,
    greatest: u64,
) -> Result<PlainMove, AllocError> {
    let most = draws.below(2).saturating_add(1);
    let effects = some_pairs(alloc, draws, settings, most)?;
    let conditions = some_conditions(alloc, draws, settings, effects.as_slice())?;
    let base = some_time(draws, greatest);
    let surcharges = some_surcharges(alloc, draws, settings, greatest)?;
    Ok(PlainMove {
        number,
        conditions,
        effects,
        base,
        surcharges,
    })
}

/// Moves in a table of so many slots, each of which is in use with the chance of three in four.
fn some_moves(
    alloc: Global,
    draws: &mut Sequence,
    settings: &[u8],
    slots: u8,
) -> Result<Vec<PlainMove>, AllocError> {
    let greatest = some_greatest(draws);
    let mut moves = Vec::new(alloc);
    for number in 0..slots {
        if !draws.once_in(4) && moves.len() < MOST_MOVES {
            moves.push(some_move(alloc, draws, settings, number, greatest)?)?;
        }
    }
    Ok(moves)
}

/// Two to four settings for each of one to five devices.
fn some_settings(alloc: Global, draws: &mut Sequence) -> Result<Vec<u8>, AllocError> {
    let mut settings = Vec::new(alloc);
    for _ in 0..draws.below(5).saturating_add(1) {
        settings.push(draws.byte_below(3).saturating_add(2))?;
    }
    Ok(settings)
}

/// A rig whose moves have nothing to do with one another.
fn loose(alloc: Global, draws: &mut Sequence) -> Result<PlainRig, AllocError> {
    let settings = some_settings(alloc, draws)?;
    let mut names = Vec::new(alloc);
    let mut scene = Vec::new(alloc);
    let mut masks = Vec::new(alloc);
    for (device, count) in settings.iter().enumerate() {
        let device = u8::try_from(device).unwrap_or(0);
        names.push(some_name(draws, device))?;
        scene.push(draws.byte_below(*count))?;
        masks.push(some_mask(draws, *count))?;
    }
    let slots = draws.byte_below(16).saturating_add(1);
    let moves = some_moves(alloc, draws, settings.as_slice(), slots)?;
    Ok(PlainRig {
        settings,
        names,
        scene,
        masks,
        slots,
        moves,
    })
}

/// A random rig: of sixteen one counts, and three are free ladders.
pub fn invent(alloc: Global, draws: &mut Sequence) -> Result<PlainRig, AllocError> {
    match draws.below(16) {
        0 => climbing(alloc, draws, Ladder::Counting),
        1..=3 => climbing(alloc, draws, Ladder::Free),
        _ => loose(alloc, draws),
    }
}
