//! Random lists of pairs, in which no device stands twice.
use crate::sequence::Sequence;
use moves::pair::Pair;
use std::alloc::{AllocError, Global};

/// Adds a pair of the device at a random setting, unless the device stands in the list or there is none of that number.
pub fn add_pair(
    draws: &mut Sequence,
    settings: &[u8],
    device: usize,
    pairs: &mut Vec<Pair>,
) -> Result<(), AllocError> {
    let Some(count) = settings.get(device) else {
        return Ok(());
    };
    let setting = draws.byte_below(*count);
    let device = u8::try_from(device).unwrap_or(u8::MAX);
    if !pairs.iter().any(|pair| pair.device == device) {
        pairs.push(Pair { device, setting })?;
    }
    Ok(())
}

/// Up to so many pairs of random devices, in random order; at least one of one or more.
pub fn some_pairs(
    alloc: Global,
    draws: &mut Sequence,
    settings: &[u8],
    most: u64,
) -> Result<Vec<Pair>, AllocError> {
    let mut pairs = Vec::new(alloc);
    for _ in 0..most {
        let device = draws.place_below(settings.len());
        add_pair(draws, settings, device, &mut pairs)?;
    }
    Ok(pairs)
}
