//! What the planning rule dials.
ghost use Rattle.std.specs.Prelude.{◌≡◌, Some};
ghost use Rattle.rule.specs.Steps.{entry, entries, admitted as the_admitted, dearer as the_dearer};

use lists::limits::MOST_SETTINGS;
use lists::places::set_in;
use moves::masks::admits;
use std::array;

/// One entry at a setting, another elsewhere.
pub fn only_at(
    setting: u8,
    there: Option<u64>,
    elsewhere: Option<u64>,
) -> [Option<u64>; MOST_SETTINGS]
    ensures { result ≡ entries (entry setting there elsewhere) }
{
    let mut all = [elsewhere; MOST_SETTINGS];
    set_in(&mut all, usize::from(setting), there);
    all
}

/// An extra at a setting, 0 elsewhere.
pub(crate) fn dearer(extra: u16, setting: u8) -> [Option<u64>; MOST_SETTINGS]
    ensures { result ≡ entries (the_dearer extra setting) }
{
    only_at(setting, Some(u64::from(extra)), Some(0))
}

/// 0 at a setting that a mask admits, never at another.
fn admitted(mask: u8, setting: u8) -> Option<u64>
    ensures { result ≡ the_admitted mask setting }
{
    admits(mask, setting).then_some(0)
}

/// 0 at the settings that a mask admits, never elsewhere.
pub fn admitting(mask: u8) -> [Option<u64>; MOST_SETTINGS]
    ensures { result ≡ entries (the_admitted mask) }
{
    // A cast: a setting is below 8.
    array::from_fn(|setting| admitted(mask, setting as u8))
}

/// The same entry at every setting.
pub fn throughout(time: u16) -> [Option<u64>; MOST_SETTINGS]
    ensures { result ≡ entries (λ _. Some time) }
{
    [Some(u64::from(time)); MOST_SETTINGS]
}
