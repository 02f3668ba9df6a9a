//! Damage to the bytes of a file.
ghost use Rattle.std.specs.Prelude.{◌≡◌, ◌≤◌, vec_len};

use crate::sequence::Sequence;
use std::alloc::{AllocError, Global};

/// How many bytes are changed or added at most.
const MOST_BYTES: u64 = 6;

/// Gives some bytes other values, any at all.
fn overwrite(draws: &mut Sequence, file: &mut Vec<u8>)
    ensures { vec_len file.new ≡ vec_len file.old }
{
    for _ in 0..draws.below(MOST_BYTES).saturating_add(1) {
        let place = draws.place_below(file.len());
        let value = draws.byte();
        if let Some(byte) = file.get_mut(place) {
            *byte = value;
        }
    }
}

/// Makes a byte a little larger or smaller, so that a file often stays one.
fn nudge(draws: &mut Sequence, file: &mut Vec<u8>)
    ensures { vec_len file.new ≡ vec_len file.old }
{
    let place = draws.place_below(file.len());
    let more = draws.byte_below(7).wrapping_sub(3);
    if let Some(byte) = file.get_mut(place) {
        *byte = byte.wrapping_add(more);
    }
}

/// Cuts bytes off the end.
fn cut(draws: &mut Sequence, file: &mut Vec<u8>)
    ensures { vec_len file.new ≤ vec_len file.old }
{
    let length = draws.place_below(file.len());
    file.truncate(length);
}

/// Adds bytes at the end.
fn lengthen(draws: &mut Sequence, file: &mut Vec<u8>) -> Result<(), AllocError> {
    for _ in 0..draws.below(MOST_BYTES).saturating_add(1) {
        file.push(draws.byte())?;
    }
    Ok(())
}

/// A damaged copy of a file. Now and then it is the same after all.
pub fn damaged(draws: &mut Sequence, file: &Vec<u8>) -> Result<Vec<u8>, AllocError> {
    let mut copy = file.clone()?;
    match draws.below(5) {
        0 => overwrite(draws, &mut copy),
        1 => cut(draws, &mut copy),
        2 => lengthen(draws, &mut copy)?,
        _ => nudge(draws, &mut copy),
    }
    Ok(copy)
}
