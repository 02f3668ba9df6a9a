//! The file of a rig, compared with one that is put together from the plain data.
use crate::plain::{PlainMove, PlainRig, PlainSurcharge};
use anyhow::ensure;
use moves::pair::Pair;
use rig::frame::Rig;
use rigfile::fault::WriteFault;
use rigfile::write::write;
use std::alloc::{AllocError, Global};

/// No file of a trial's rig is longer.
const BUFFER: usize = 4096;

/// Stands in the buffer where nothing is written.
const UNWRITTEN: u8 = 0xA5;

/// The number of items in a byte.
fn count(items: usize) -> u8 {
    u8::try_from(items).unwrap_or(u8::MAX)
}

/// Two bytes, the low one first.
fn put_number(file: &mut Vec<u8>, number: usize) -> Result<(), AllocError> {
    let number = u16::try_from(number).unwrap_or(u16::MAX);
    for byte in number.to_le_bytes() {
        file.push(byte)?;
    }
    Ok(())
}

fn put_pairs(file: &mut Vec<u8>, pairs: &[Pair]) -> Result<(), AllocError> {
    for pair in pairs {
        file.push(pair.device)?;
        file.push(pair.setting)?;
    }
    Ok(())
}

fn put_surcharge(file: &mut Vec<u8>, surcharge: &PlainSurcharge) -> Result<(), AllocError> {
    file.push(count(surcharge.tests.len()))?;
    put_number(file, usize::from(surcharge.extra))?;
    put_pairs(file, surcharge.tests.as_slice())
}

fn put_move(file: &mut Vec<u8>, entry: &PlainMove) -> Result<(), AllocError> {
    file.push(entry.number)?;
    file.push(count(entry.conditions.len()))?;
    file.push(count(entry.effects.len()))?;
    file.push(count(entry.surcharges.len()))?;
    put_number(file, usize::from(entry.base))?;
    put_pairs(file, entry.conditions.as_slice())?;
    put_pairs(file, entry.effects.as_slice())?;
    for surcharge in &entry.surcharges {
        put_surcharge(file, surcharge)?;
    }
    Ok(())
}

/// The devices and the scene part.
fn put_devices(file: &mut Vec<u8>, plain: &PlainRig) -> Result<(), AllocError> {
    for (settings, name) in plain.settings.iter().zip(&plain.names) {
        file.push(*settings)?;
        file.extend_from_slice(name)?;
    }
    file.extend_from_slice(plain.scene.as_slice())?;
    file.extend_from_slice(plain.masks.as_slice())
}

/// The header of a file with so many bytes of moves.
fn header(alloc: Global, plain: &PlainRig, moves: usize) -> Result<Vec<u8>, AllocError> {
    let devices = plain.settings.len();
    let scene = devices.saturating_mul(9).saturating_add(12);
    let first_move = devices.saturating_mul(11).saturating_add(12);
    let mut file = vec![in alloc; 1, count(devices), count(plain.moves.len()), 0]?;
    put_number(&mut file, 12)?;
    put_number(&mut file, scene)?;
    put_number(&mut file, first_move)?;
    put_number(&mut file, first_move.saturating_add(moves))?;
    Ok(file)
}

/// The file that the plain rig must have.
fn file_of(alloc: Global, plain: &PlainRig) -> Result<Vec<u8>, AllocError> {
    let mut moves = Vec::new(alloc);
    for entry in &plain.moves {
        put_move(&mut moves, entry)?;
    }
    let mut file = header(alloc, plain, moves.len())?;
    put_devices(&mut file, plain)?;
    file.extend_from_slice(moves.as_slice())?;
    Ok(file)
}

/// The file of a rig, as it is written.
pub fn written(alloc: Global, rig: &Rig) -> anyhow::Result<Vec<u8>> {
    let mut buffer = vec![in alloc; UNWRITTEN; BUFFER]?;
    let length = write(rig, buffer.as_mut_slice())?;
    ensure!(
        buffer.iter().skip(length).all(|byte| *byte == UNWRITTEN),
        "a byte past the file is written"
    );
    buffer.truncate(length);
    Ok(buffer)
}

/// Writes the rig's file, which must be the one that the plain data gives, and tries a buffer that is a byte too short.
pub fn tried(alloc: Global, rig: &Rig, plain: &PlainRig) -> anyhow::Result<()> {
    let file = written(alloc, rig)?;
    let wanted = file_of(alloc, plain)?;
    ensure!(
        file.as_slice() == wanted.as_slice(),
        "the file differs from the plain data's"
    );
    let needed = file.len();
    let mut short = vec![in alloc; UNWRITTEN; needed.saturating_sub(1)]?;
    let is_refused = write(rig, short.as_mut_slice()) == Err(WriteFault { needed });
    ensure!(is_refused, "a buffer a byte too short is not refused");
    ensure!(
        short.iter().all(|byte| *byte == UNWRITTEN),
        "a buffer too short is written"
    );
    Ok(())
}
