//! Masks: which settings they admit.
ghost use Rattle.std.specs.Prelude.{◌≡◌};
ghost use Rattle.model.specs.Masks.{admits as admits_setting};

/// Whether a mask admits a setting.
pub fn admits(mask: u8, setting: u8) -> bool
    ensures { result ≡ admits_setting mask setting }
{
    setting < 8 && (mask >> setting) % 2 == 1
}
