ghost use Rattle.std.specs.Prelude.{◌≡◌, ◌^◌, ◌≤◌, false, length};
ghost use Rattle.model.specs.Limits.{outside, least_settings, most_settings, most_devices};
ghost use Rattle.model.specs.Lists.{some};
ghost use Rattle.model.specs.Refusals.{answer};
ghost use Rattle.model.specs.Scenes.{size, rank};
ghost use Rattle.model.specs.Shelves.{scene_checks};
ghost use Rattle.shelf.specs.Faults.{numbered};

use crate::fault::ShelfFault;

/// How many scenes devices with these counts of settings have.
pub(crate) fn scenes(settings: &[u8]) -> usize
    requires few { length settings.now ≤ most_devices }
    requires legal { some (outside least_settings most_settings) settings.now ≡ false }
    ensures value { result ≡ size settings.now }
    ensures bound { result ≤ most_settings ^ most_devices }
{
    settings.iter().map(|count| usize::from(*count)).product()
}

/// The place of a scene among all of them, device 0 slowest.
pub(crate) fn place(settings: &[u8], scene: &[u8]) -> Result<usize, ShelfFault>
    requires few { length settings.now ≤ most_devices }
    requires legal { some (outside least_settings most_settings) settings.now ≡ false }
    ensures answer { numbered result ≡ answer (scene_checks settings.now scene.now) (rank settings.now scene.now) }
{
    if scene.len() != settings.len() {
        return Err(ShelfFault::CountsOff);
    }
    scene
        .iter()
        .zip(settings)
        .try_fold(0, |place, (setting, count)| {
            (setting < count)
                .then(|| place * usize::from(*count) + usize::from(*setting))
                .ok_or(ShelfFault::SettingHigh)
        })
}
