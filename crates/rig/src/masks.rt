//! Masks: which are ill, how many scenes they want, and whether a scene is wanted.
ghost use Rattle.std.specs.Prelude.{◌≡◌, ◌≤◌, length};
ghost use Rattle.model.specs.Lists.{some_two};
ghost use Rattle.model.specs.Limits.{most_devices};
ghost use Rattle.model.specs.Masks.{ill, wanted, product_of_ones};

use moves::masks::admits;

/// Whether a mask admits nothing, or has a bit for no setting of a device with so many.
fn is_ill(mask: u8, settings: u8) -> bool
    ensures { result ≡ ill mask settings }
{
    mask == 0 || (settings < 8 && mask >= 1u8 << settings)
}

/// Whether some mask is ill for its device.
pub(crate) fn some_ill(masks: &[u8], settings: &[u8]) -> bool
    ensures { result ≡ some_two ill masks.now settings.now }
{
    masks
        .iter()
        .zip(settings)
        .any(|(mask, count)| is_ill(*mask, *count))
}

/// How many scenes the masks want.
pub(crate) fn product(masks: &[u8]) -> u64
    requires { length masks.now ≤ most_devices }
    ensures { result ≡ product_of_ones masks.now }
{
    // A loop: over a chain it takes five times as long.
    let mut product = 1;
    for mask in masks {
        product *= u64::from(mask.count_ones());
    }
    product
}

/// Whether every setting of the scene is admitted.
pub(crate) fn every_admitted(masks: &[u8], scene: &[u8]) -> bool
    requires { length masks.now ≤ length scene.now }
    ensures { result ≡ wanted masks.now scene.now }
{
    // A loop, as in `product`.
    for i in 0..masks.len() {
        if !admits(masks[i], scene[i]) {
            return false;
        }
    }
    true
}
