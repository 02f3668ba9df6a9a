//! Open: what is looked at, and what it leaves.
ghost use Rattle.std.specs.Prelude.{◌≡◌};
ghost use Rattle.model.specs.Limits.{outside, least_byte, most_byte};
ghost use Rattle.model.specs.Lists.{some};
ghost use Rattle.model.specs.Calls.{counts_off as are_counts_off, opens};
ghost use Rattle.moves.specs.Faults.{numbered};

use lists::counts::*;
use lists::limits::*;
use lists::names::Name;
use lists::repeats::first_repeat;
use moves::fault::RigFault;

/// Whether a name has a byte that is not printable.
fn some_name_off(names: &[Name]) -> bool
    ensures { result ≡ some (some (outside least_byte most_byte)) names.now }
{
    names
        .iter()
        .any(|name| some_outside(LEAST_BYTE, MOST_BYTE, name))
}

/// Whether there are too few or too many devices or settings, or a list has not one item per device.
fn counts_off(settings: &[u8], names: &[Name], scene: &[u8]) -> bool
    ensures { result ≡ are_counts_off settings.now names.now scene.now }
{
    shape_off(settings) || names.len() != settings.len() || scene.len() != settings.len()
}

/// The smallest refusal of an opening that holds.
// Settings, names and scene are no struct of their own: they come side by side, as the call `open` takes them.
pub(crate) fn judge_opening(
    settings: &[u8],
    names: &[Name],
    scene: &[u8],
    slots: usize,
) -> Result<(), RigFault>
    ensures { numbered result ≡ opens settings.now names.now scene.now slots }
{
    if counts_off(settings, names, scene) {
        return Err(RigFault::CountsOff);
    }
    if some_name_off(names) {
        return Err(RigFault::NameByteOff);
    }
    if !(1..=MOST_SLOTS).contains(&slots) {
        return Err(RigFault::SlotsOff);
    }
    if some_high(settings, scene) {
        return Err(RigFault::SettingHigh);
    }
    if first_repeat(names).is_some() {
        return Err(RigFault::Repeated);
    }
    Ok(())
}
