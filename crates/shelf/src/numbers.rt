//! What the numbers of a call name.
ghost use Rattle.std.specs.Prelude.{◌≡◌, ◌<◌, length, MatchResult};
ghost use Rattle.model.specs.Limits.{peg_count};
ghost use Rattle.model.specs.Refusals.{answer};
ghost use Rattle.model.specs.Shelves.{scene_checks};
ghost use Rattle.shelf.specs.Faults.{numbered};
ghost use Rattle.shelf.specs.Numbers.{Names, High};

use crate::fault::ShelfFault;
use lists::counts::some_high;
use lists::limits::PEGS;

/// A number below that of the pegs.
#[derive(Clone, Copy)]
pub struct Peg {
    pub number: usize,
    ghost low: { number < peg_count },
}

/// The peg of a number, where there is one.
pub fn peg_of(number: u8) -> Result<Peg, ShelfFault>
    ensures { MatchResult result (λ p. p.number ≡ number) (High ShelfFault.PegHigh peg_count number) }
{
    let peg = usize::from(number);
    // Not `then` and `ok_or`: the closure that makes a peg would ask once more, by a clause of its own, that it is low.
    if peg < PEGS {
        Ok(Peg { number: peg })
    } else {
        Err(ShelfFault::PegHigh)
    }
}

/// The device of a number, where a shape has it.
pub fn device_of(settings: &[u8], number: u8) -> Result<usize, ShelfFault>
    ensures { MatchResult result (Names (length settings.now) number) (High ShelfFault.DeviceHigh (length settings.now) number) }
{
    let device = usize::from(number);
    (device < settings.len())
        .then_some(device)
        .ok_or(ShelfFault::DeviceHigh)
}

/// Whether a scene has one setting for each device, none too high for it.
pub fn judge_scene(settings: &[u8], scene: &[u8]) -> Result<(), ShelfFault>
    ensures answer { numbered result ≡ answer (scene_checks settings.now scene.now) tt }
{
    if scene.len() != settings.len() {
        return Err(ShelfFault::CountsOff);
    }
    if some_high(settings, scene) {
        return Err(ShelfFault::SettingHigh);
    }
    Ok(())
}
