//! The table of move slots, lent as a slice: one slot is read or rewritten by its number.
// No methods of the rig: by a rule of the project the table of moves is lent as a slice to what reads or rewrites a slot.
ghost use Rattle.std.specs.Prelude.{◌≡◌, ◌<◌, map, length, Some, None, Option, slice_index_or, slice_set};
ghost use Rattle.lists.specs.Shorts.{listed};
ghost use Rattle.model.specs.Refusals.{answer};
ghost use Rattle.moves.specs.Faults.{Judged, numbered};
ghost use Rattle.moves.specs.Views.{surcharge_of, move_of, slot_of};
ghost use Rattle.rig.specs.Slots.{use_checks, vacancy_checks, retimed_in};

use lists::limits::*;
use lists::short::Short;
use moves::entry::{Move, Surcharge};
use moves::fault::RigFault;

/// The move in a slot.
pub(crate) fn occupied(slots: &[Option<Move>], number: usize) -> Result<&Move, RigFault>
    ensures { Judged (use_checks (map slot_of slots.now) number) (λ m. (slice_index_or slots.now number None ≡ Some m.now) × (slice_index_or (map slot_of slots.now) number None ≡ Some (move_of m.now))) result }
{
    let slot = slots.get(number).ok_or(RigFault::NumberHigh)?;
    slot.as_ref().ok_or(RigFault::SlotVacant)
}

/// That there is such a slot, and that it is vacant.
pub(crate) fn vacant(slots: &[Option<Move>], number: usize) -> Result<(), RigFault>
    ensures { numbered result ≡ answer (vacancy_checks (map slot_of slots.now) number) tt }
{
    // A `match`: the library has no word for an option that must be empty.
    match slots.get(number).ok_or(RigFault::NumberHigh)? {
        Some(_) => Err(RigFault::SlotInUse),
        None => Ok(()),
    }
}

/// Rewrites one slot.
pub(crate) fn store(slots: &mut [Option<Move>], number: usize, entry: Option<Move>)
    requires { number < length slots.old }
    ensures list { slots.new ≡ slice_set slots.old number entry }
    ensures seen { map slot_of slots.new ≡ slice_set (map slot_of slots.old) number (slot_of entry) }
{
    slots[number] = entry;
}

/// Replaces the base and the surcharges of the move in a slot, if it has one, where it stands.
pub(crate) fn retime(
    slots: &mut [Option<Move>],
    number: usize,
    base: u16,
    surcharges: Short<Surcharge, MOST_SURCHARGES>,
)
    requires { number < length slots.old }
    ensures list { (entry : Option Move) × (slots.new ≡ slice_set slots.old number entry) }
    ensures seen { map slot_of slots.new ≡ slice_set (map slot_of slots.old) number (retimed_in base (map surcharge_of (listed surcharges)) (slice_index_or (map slot_of slots.old) number None)) }
{
    if let Some(entry) = &mut slots[number] {
        entry.retime(base, surcharges);
    }
}
