//! The planning rule carried out on plain lists of times, call by call.
use crate::board::{Board, Entries, Fill};
use crate::plain::{PlainMove, PlainRig, PlainSurcharge};
use crate::scenes::scene_count;
use moves::pair::Pair;
use std::alloc::{AllocError, Global};

/// One entry at a setting, another elsewhere.
fn only_at(setting: u8, there: Option<u64>, elsewhere: Option<u64>) -> Entries {
    let mut entries = [elsewhere; 8];
    if let Some(entry) = entries.get_mut(usize::from(setting)) {
        *entry = there;
    }
    entries
}

/// 0 at the settings that the mask admits.
fn admitted(mask: u8) -> Entries {
    let mut entries = [None; 8];
    let mut rest = mask;
    for entry in entries.iter_mut() {
        *entry = (rest % 2 == 1).then_some(0);
        rest /= 2;
    }
    entries
}

/// Round 0: 0 at the wanted scenes.
fn begin(board: &mut Board<'_>, masks: &[u8]) -> Result<(), AllocError> {
    for (device, mask) in masks.iter().enumerate() {
        if device == 0 {
            board.dial(0, device, &admitted(*mask))?;
        } else {
            board.dial(3, device, &admitted(*mask))?;
            board.sum(0, 0, 3)?;
        }
    }
    Ok(())
}

/// Hangs on peg 3 the extra where all tests hold, 0 elsewhere.
fn test(board: &mut Board<'_>, extra: Option<u64>, tests: &[Pair]) -> Result<(), AllocError> {
    for (place, test) in tests.iter().enumerate() {
        let device = usize::from(test.device);
        let entries = only_at(test.setting, extra, Some(0));
        if place == 0 {
            board.dial(3, device, &entries)?;
        } else {
            board.dial(4, device, &entries)?;
            board.cheaper(3, 3, 4)?;
        }
    }
    Ok(())
}

fn surcharge(board: &mut Board<'_>, surcharges: &[PlainSurcharge]) -> Result<(), AllocError> {
    for surcharge in surcharges {
        test(
            board,
            Some(u64::from(surcharge.extra)),
            surcharge.tests.as_slice(),
        )?;
        board.sum(2, 2, 3)?;
    }
    Ok(())
}

fn condition(board: &mut Board<'_>, conditions: &[Pair]) -> Result<(), AllocError> {
    for condition in conditions {
        let entries = only_at(condition.setting, Some(0), None);
        board.dial(3, usize::from(condition.device), &entries)?;
        board.sum(2, 2, 3)?;
    }
    Ok(())
}

fn put_effects(board: &mut Board<'_>, effects: &[Pair]) -> Result<(), AllocError> {
    for effect in effects {
        board.put(2, effect)?;
    }
    Ok(())
}

/// Lowers peg 1 to the times by way of a move.
fn try_move(board: &mut Board<'_>, entry: &PlainMove) -> Result<(), AllocError> {
    board.cheaper(2, 0, 0)?;
    put_effects(board, entry.effects.as_slice())?;
    condition(board, entry.conditions.as_slice())?;
    board.dial(3, 0, &[Some(u64::from(entry.base)); 8])?;
    board.sum(2, 2, 3)?;
    surcharge(board, entry.surcharges.as_slice())?;
    board.cheaper(1, 1, 2)
}

/// A round, and whether it changed nothing.
fn round(board: &mut Board<'_>, moves: &[PlainMove]) -> Result<bool, AllocError> {
    board.cheaper(1, 0, 0)?;
    for entry in moves {
        board.number = Some(entry.number);
        try_move(board, entry)?;
    }
    board.number = None;
    if board.chart(0) == board.chart(1) {
        return Ok(true);
    }
    board.cheaper(0, 1, 1)?;
    Ok(false)
}

/// The fill at each hanging of the rule for a rig, in order.
pub fn fills(alloc: Global, rig: &PlainRig) -> Result<Vec<Fill>, AllocError> {
    let settings = rig.settings.as_slice();
    let mut board = Board::bare(alloc, settings, scene_count(settings))?;
    begin(&mut board, rig.masks.as_slice())?;
    for number in 1..u64::MAX {
        board.round = number;
        if round(&mut board, rig.moves.as_slice())? {
            break;
        }
    }
    Ok(board.fills)
}
