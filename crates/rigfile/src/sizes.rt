//! How many bytes the parts of a file take.
ghost use Rattle.std.specs.Prelude.{◌≡◌, ◌+◌, ◌*◌, ◌≤◌, length, count_by, is_some, Some};
ghost use Rattle.std.specs.List.{sum_by, AllByRecursion};
ghost use Rattle.model.specs.Limits.{most_devices, most_surcharges, most_slots};
ghost use Rattle.format.specs.Files.{Eight, file};
ghost use Rattle.rig.specs.Rigs.{contents};
ghost use Rattle.rigfile.specs.Writing.{surcharge_bytes, slot_bytes};

use lists::names::Name;
use moves::entry::{Move, Surcharge};
use rig::frame::Rig;

/// How many bytes devices with these names take. A name has eight.
fn devices_size(names: &[Name]) -> usize
    requires { length names.now ≤ most_devices }
    ensures size { result ≡ 9 * length names.now }
    ensures eight { AllByRecursion Eight names.now }
{
    9 * names.len()
}

fn surcharge_size(surcharge: &Surcharge) -> usize
    ensures size { result ≡ length (surcharge_bytes surcharge.now) }
    ensures small { result ≤ 9 }
{
    3 + 2 * surcharge.tests().len()
}

fn surcharges_size(surcharges: &[Surcharge]) -> usize
    requires { length surcharges.now ≤ most_surcharges }
    ensures { result ≡ sum_by (λ x. length (surcharge_bytes x)) surcharges.now }
{
    surcharges.iter().map(surcharge_size).sum()
}

/// How many bytes a slot takes: none where it is vacant.
fn slot_size(slot: &Option<Move>) -> usize
    ensures size { result ≡ length (slot_bytes 0 slot.now) }
    ensures small { result ≤ 126 }
{
    slot.as_ref().map_or(0, move_size)
}

fn move_size(entry: &Move) -> usize
    ensures size { result ≡ length (slot_bytes 0 (Some entry.now)) }
    ensures small { result ≤ 126 }
{
    6 + 2 * entry.conditions().len()
        + 2 * entry.effects().len()
        + surcharges_size(entry.surcharges())
}

fn slots_size(slots: &[Option<Move>]) -> usize
    requires { length slots.now ≤ most_slots }
    ensures { result ≡ sum_by (λ x. length (slot_bytes 0 x)) slots.now }
{
    slots.iter().map(slot_size).sum()
}

/// How many bytes the file of a rig has.
pub(crate) fn file_size(rig: &Rig) -> usize
    ensures size { result ≡ length (file (contents rig.now)) }
    ensures small { result ≤ 32274 }
{
    12 + devices_size(rig.names()) + 2 * rig.settings().len() + slots_size(rig.slots())
}

/// How many slots are in use.
pub(crate) fn in_use(slots: &[Option<Move>]) -> usize
    ensures { result ≡ count_by is_some slots.now }
{
    slots.iter().filter(|slot| slot.is_some()).count()
}
