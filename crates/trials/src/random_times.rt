//! Random times and surcharges.
use crate::pairs::some_pairs;
use crate::plain::PlainSurcharge;
use crate::sequence::Sequence;
use std::alloc::{AllocError, Global};

/// Times are drawn from 1 to one of these; small ones make many runs equally quick.
const GREATEST_TIMES: [u64; 4] = [1, 3, 12, 20_000];

/// The greatest time of a rig's bases and extras.
pub fn some_greatest(draws: &mut Sequence) -> u64 {
    draws.one_of(&GREATEST_TIMES, 1)
}

/// A time from 1 to the greatest.
pub fn some_time(draws: &mut Sequence, greatest: u64) -> u16 {
    let time = draws.below(greatest).saturating_add(1);
    u16::try_from(time).unwrap_or(1)
}

/// Up to two surcharges.
pub fn some_surcharges(
    alloc: Global,
    draws: &mut Sequence,
    settings: &[u8],
    greatest: u64,
) -> Result<Vec<PlainSurcharge>, AllocError> {
    let mut surcharges = Vec::new(alloc);
    for _ in 0..draws.below(3) {
        let most = draws.below(3).saturating_add(1);
        let tests = some_pairs(alloc, draws, settings, most)?;
        let extra = some_time(draws, greatest);
        surcharges.push(PlainSurcharge { tests, extra })?;
    }
    Ok(surcharges)
}
