//! Rounds of value iteration on a shelf: peg 0 has the times so far, peg 1 comes to have those after one round more.
ghost use Rattle.std.specs.Prelude.{◌≡◌, ◌<◌, ◌≤◌, map, length, Some};
ghost use Rattle.model.specs.Limits.{most_devices, most_slots};
ghost use Rattle.rule.specs.Steps.{masked as the_masked, round_0, of_slot, marked, by_moves, round as the_round};
ghost use Rattle.moves.specs.Views.{slot_of};
ghost use Rattle.steps.specs.Ends.{Took};
ghost use Rattle.rounds.specs.Rounds.{Stepped};

use moves::entry::Move;
use shelf::calls::Shelf;
use steps::dials::admitting;
use steps::fault::*;
use steps::halt::Halt;
use steps::round::Round;

/// Adds the masks of the devices after the first to peg 0: 0 at admitted settings, never elsewhere.
// Here and below slices are few by a clause: these are parts of a rig, taken apart by the calls above.
fn masked<S: Shelf>(round: &mut Round<S>, masks: &[u8]) -> Result<(), Halt>
    requires few { length masks.now < most_devices }
    ensures took { Took S.meaning round.old (the_masked 1 masks.now) result round.new }
{
    for (before, mask) in masks.iter().enumerate() {
        // A cast: devices are fewer than 13, so their numbers fit a byte.
        round.add_dial(0, before as u8 + 1, admitting(*mask))?;
    }
    Ok(())
}

/// Round 0: on peg 0 come to hang 0 in the wanted scenes, never elsewhere.
pub(crate) fn before_rounds<S: Shelf>(round: &mut Round<S>, masks: &[u8]) -> Result<(), Halt>
    requires some { 1 ≤ length masks.now }
    requires few { length masks.now ≤ most_devices }
    ensures took { Took S.meaning round.old (round_0 masks.now) result round.new }
{
    let (first, others) = masks.split_first().unwrap();
    round.dial(0, 0, admitting(*first))?;
    masked(round, others)
}

/// Lowers peg 1 to the times by way of the move of a slot, if one is there. A refusal is passed on with its number.
fn by_move<S: Shelf>(
    round: &mut Round<S>,
    number: usize,
    slot: &Option<Move>,
) -> Result<(), PlanFault>
    requires numbered { number < most_slots }
    ensures stepped { Stepped S.meaning round.old (marked round.old.number (Some number) (of_slot (slot_of slot.now))) result round.new }
{
    // A cast: a number of a slot is below 255.
    round
        .lowered(slot)
        .map_err(|halt| halt.in_move(number as u8))
}

/// Lowers peg 1 to the times by way of each move, by rising number.
fn by_moves<S: Shelf>(round: &mut Round<S>, slots: &[Option<Move>]) -> Result<(), PlanFault>
    requires few { length slots.now ≤ most_slots }
    ensures stepped { Stepped S.meaning round.old (by_moves round.old.number 0 (map slot_of slots.now)) result round.new }
{
    for (number, slot) in slots.iter().enumerate() {
        by_move(round, number, slot)?;
    }
    Ok(())
}

/// One round: a copy of peg 0 on peg 1, lowered by way of each move.
pub(crate) fn one_round<S: Shelf>(
    round: &mut Round<S>,
    slots: &[Option<Move>],
) -> Result<(), PlanFault>
    requires few { length slots.now ≤ most_slots }
    ensures stepped { Stepped S.meaning round.old (the_round round.old.number (map slot_of slots.now)) result round.new }
{
    round.cheaper(1, 0, 0)?;
    by_moves(round, slots)
}
