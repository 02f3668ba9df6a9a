//! Files read back, and damaged files read.
use crate::damage::damaged;
use crate::files::written;
use crate::plain::PlainRig;
use crate::sequence::Sequence;
use crate::tally::{Tally, add_to};
use anyhow::{Context, ensure};
use rig::frame::Rig;
use rigfile::read::read;
use rigfile::unread::Unread;
use std::alloc::Global;

/// How many damaged copies of a file are read.
const COPIES: u64 = 20;

/// The bytes read into a table of so many slots.
fn read_into(alloc: Global, bytes: &[u8], slots: usize) -> anyhow::Result<Result<Rig, Unread>> {
    let table = vec![in alloc; None; slots]?;
    Ok(read(bytes, table))
}

/// A rig that was read must be written as the bytes that it was read from.
fn is_written_alike(alloc: Global, rig: &Rig, bytes: &[u8]) -> anyhow::Result<()> {
    let again = written(alloc, rig)?;
    ensure!(
        again.as_slice() == bytes,
        "a file that was read is written otherwise"
    );
    Ok(())
}

/// A table that is handed back must be as long as before, and every slot vacant.
fn is_handed_back(unread: &Unread, slots: usize) -> anyhow::Result<()> {
    ensure!(
        unread.slots.len() == slots,
        "a table is handed back shorter or longer"
    );
    ensure!(
        unread.slots.iter().all(|slot| slot.is_none()),
        "a table is handed back in use"
    );
    Ok(())
}

/// Reads the file of a rig, into a table as long as its own.
fn read_back(alloc: Global, file: &[u8], slots: usize) -> anyhow::Result<()> {
    let rig = read_into(alloc, file, slots)?.map_err(|unread| unread.fault)?;
    ensure!(
        rig.slots().len() == slots,
        "the table that was read is shorter or longer"
    );
    is_written_alike(alloc, &rig, file)
}

/// The length of the table that a damaged file is read into: now and then shorter, or of no slot.
fn some_length(draws: &mut Sequence, slots: usize) -> usize {
    if draws.once_in(8) {
        draws.place_below(slots)
    } else {
        slots
    }
}

/// Reads a damaged file: it may be refused, and otherwise is written as it was read.
fn read_damaged(alloc: Global, file: &[u8], slots: usize, tally: &mut Tally) -> anyhow::Result<()> {
    match read_into(alloc, file, slots)? {
        Ok(rig) => {
            add_to(&mut tally.accepted, 1);
            is_written_alike(alloc, &rig, file)
        }
        Err(unread) => {
            let number = unread.fault.number();
            ensure!(tally.count_refusal(number), "a file is refused by {number}");
            is_handed_back(&unread, slots)
        }
    }
}

/// Reads the rig's file back, and damaged copies of it.
pub fn read_tried(
    alloc: Global,
    draws: &mut Sequence,
    rig: &Rig,
    plain: &PlainRig,
    tally: &mut Tally,
) -> anyhow::Result<()> {
    let file = written(alloc, rig)?;
    let slots = usize::from(plain.slots);
    read_back(alloc, file.as_slice(), slots).context("the file read back")?;
    add_to(&mut tally.read_back, 1);
    for copy in 0..COPIES {
        let bytes = damaged(draws, &file)?;
        let table = some_length(draws, slots);
        read_damaged(alloc, bytes.as_slice(), table, tally).context(format_args!(
            "damaged copy {copy}"
        ))?;
    }
    Ok(())
}
