//! Random names and masks of devices.
use crate::sequence::Sequence;
use lists::names::Name;

/// A name for the device of a number: a letter of its own and seven random characters.
pub fn some_name(draws: &mut Sequence, device: u8) -> Name {
    let mut name = [b'A'.saturating_add(device); 8];
    for byte in name.iter_mut().skip(1) {
        *byte = draws.byte_below(95).saturating_add(32);
    }
    name
}

/// The mask of every setting, of so many.
fn whole_mask(settings: u8) -> u64 {
    1u64.wrapping_shl(u32::from(settings)).saturating_sub(1)
}

/// A mask for a device of so many settings: all of them, one of them, or any but none.
pub fn some_mask(draws: &mut Sequence, settings: u8) -> u8 {
    let mask = match draws.below(4) {
        0 | 1 => whole_mask(settings),
        2 => 1u64.wrapping_shl(u32::from(draws.byte_below(settings))),
        _ => draws.below(whole_mask(settings)).saturating_add(1),
    };
    u8::try_from(mask).unwrap_or(1)
}
