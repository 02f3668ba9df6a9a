//! Whether a pair fits the devices of a rig.
ghost use Rattle.std.specs.Prelude.{◌≡◌};
ghost use Rattle.model.specs.Calls.{device_high, setting_high};
ghost use Rattle.moves.specs.Views.{pair_of};

use crate::pair::Pair;

impl Pair {
    /// Whether there is no such device.
    pub fn is_device_high(self, settings: &[u8]) -> bool
        ensures { result ≡ device_high settings.now (pair_of self) }
    {
        usize::from(self.device) >= settings.len()
    }

    /// Whether the device has no such setting.
    pub fn is_setting_high(self, settings: &[u8]) -> bool
        ensures { result ≡ setting_high settings.now (pair_of self) }
    {
        settings
            .get(usize::from(self.device))
            .is_some_and(|count| self.setting >= *count)
    }
}
