//! What is wrong with the pairs and the times of a move as it is handed in.
ghost use Rattle.std.specs.Prelude.{◌≡◌, ℕ, ◌+◌, ◌-◌, ◌^◌, min, Bool, List, ◌∷◌};
ghost use Rattle.model.specs.Lists.{total, some, repeats};
ghost use Rattle.model.specs.Moves as model;
ghost use Rattle.model.specs.Refusals.{answer};
ghost use Rattle.model.specs.Calls.{device_high, setting_high, same_device, tested, pair_checks, extra, times_off as are_times_off};
ghost use Rattle.moves.specs.Faults.{numbered};
ghost use Rattle.drafts.specs.Flaws.{free};
ghost use Rattle.moves.specs.Views.{pair_of, pairs_of};
ghost use Rattle.drafts.specs.Drafts.{charge_of, charges_of};

use crate::draft::Charge;
use lists::limits::*;
use lists::repeats::first_repeat;
use moves::fault::RigFault;
use moves::pair::Pair;

// Two functions: all that they share is `any`.
fn some_device_high(pairs: &[Pair], settings: &[u8]) -> bool
    ensures { result ≡ some (device_high settings.now) (pairs_of pairs.now) }
{
    pairs.iter().any(|pair| pair.is_device_high(settings))
}

fn some_setting_high(pairs: &[Pair], settings: &[u8]) -> bool
    ensures { result ≡ some (setting_high settings.now) (pairs_of pairs.now) }
{
    pairs.iter().any(|pair| pair.is_setting_high(settings))
}

/// Whether a device stands twice.
fn is_repeating(pairs: &[Pair]) -> bool
    ensures { result ≡ repeats same_device (pairs_of pairs.now) }
{
    first_repeat(pairs).is_some()
}

/// Whether the tests of some surcharge have a flaw.
fn some_has<F: Fn(&[Pair]) -> bool>(charges: &[Charge], has: F) -> bool
    ghost flawed: { List model.Pair → Bool }
    requires callable { F.IsAlwaysCallable has }
    requires tests { (pairs : _) (answer : Bool) → F.post has pairs answer → answer ≡ flawed (pairs_of pairs.now) }
    ensures { result ≡ some flawed (tested (charges_of charges.now)) }
{
    charges.iter().any(|charge| has(charge.tests))
}

/// Whether the conditions, the effects or the tests of some surcharge have a flaw.
fn any_has<F: Fn(&[Pair]) -> bool>(
    conditions: &[Pair],
    effects: &[Pair],
    charges: &[Charge],
    has: F,
) -> bool
    ghost flawed: { List model.Pair → Bool }
    requires callable { F.IsAlwaysCallable has }
    requires tests { (pairs : _) (answer : Bool) → F.post has pairs answer → answer ≡ flawed (pairs_of pairs.now) }
    ensures { result ≡ some flawed (pairs_of conditions.now ∷ pairs_of effects.now ∷ tested (charges_of charges.now)) }
{
    has(conditions) || has(effects) || some_has(charges, has)
}

// The three lists are no struct of their own: a draft has them as its fields, and times that change have charges alone.
/// Devices that there are, settings that they have, and no device twice in a list.
pub(crate) fn judge_pairs(
    conditions: &[Pair],
    effects: &[Pair],
    charges: &[Charge],
    settings: &[u8],
) -> Result<(), RigFault>
    ensures { numbered result ≡ answer (pair_checks settings.now (pairs_of conditions.now ∷ pairs_of effects.now ∷ tested (charges_of charges.now))) tt }
{
    let is_device_high = |pairs: &[Pair]| some_device_high(pairs, settings);
    if any_has(conditions, effects, charges, is_device_high) {
        return Err(RigFault::DeviceHigh);
    }
    let is_setting_high = |pairs: &[Pair]| some_setting_high(pairs, settings);
    if any_has(conditions, effects, charges, is_setting_high) {
        return Err(RigFault::SettingHigh);
    }
    if any_has(conditions, effects, charges, is_repeating) {
        return Err(RigFault::Repeated);
    }
    Ok(())
}

impl Charge<'_> {
    /// Whether it adds nothing.
    fn is_free(&self) -> bool
        ensures { result ≡ free (charge_of self.now) }
    {
        self.extra == 0
    }
}

/// Whether some surcharge adds nothing.
fn some_free(charges: &[Charge]) -> bool
    ensures { result ≡ some free (charges_of charges.now) }
{
    charges.iter().any(|charge| charge.is_free())
}

/// The base and all extras together, as far as 32 bits reach.
fn sum_of(base: u16, charges: &[Charge]) -> u32
    ensures { result ≡ min (base + total extra (charges_of charges.now)) (2 ^ 32 - 1) }
{
    charges.iter().fold(u32::from(base), |sum, charge| {
        sum.saturating_add(u32::from(charge.extra))
    })
}

/// Whether the base or an extra is 0, or all together are above the limit.
pub(crate) fn times_off(base: u16, charges: &[Charge]) -> bool
    ensures { result ≡ are_times_off base (charges_of charges.now) }
{
    base == 0 || some_free(charges) || sum_of(base, charges) > MOST_TENTHS
}
