//! Plans on shelves, compared with what the search says.
use crate::guest::Guest;
use crate::search::Expected;
use crate::tally::{CAPACITIES, Tally, add_to};
use anyhow::{Context, anyhow, bail, ensure};
use diagram::diagram_shelf::DiagramShelf;
use flat::store::FlatShelf;
use planner::planning::plan;
use rig::frame::Rig;
use shelf::calls::Shelf;
use shelf::fault::ShelfFault;
use std::alloc::{AllocError, Global};
use steps::fault::PlanFault;

/// Stands in a sheet where nothing is written: no slot has this number.
const UNWRITTEN: u8 = 255;

/// How many bytes a long sheet has past the moves.
const SPARE: usize = 3;

/// How many cells a flat shelf has for each scene.
const PEGS: usize = 8;

/// How a plan ended that does not contradict the search.
#[derive(Clone, Copy, PartialEq, Eq)]
enum Ending {
    /// As the search says.
    Agreed,
    /// With "no room".
    NoRoom,
}

/// The sheet has the moves at its front, and nothing past them.
fn is_written(sheet: &[u8], moves: &[u8]) -> anyhow::Result<()> {
    let (front, others) = sheet
        .split_at_checked(moves.len())
        .context("the sheet is shorter than the run")?;
    ensure!(
        front == moves,
        "the sheet has {front:?}, but the search says {moves:?}"
    );
    ensure!(
        others.iter().all(|byte| *byte == UNWRITTEN),
        "the sheet is written past its moves"
    );
    Ok(())
}

/// A rig to be planned, what the search says of it, and a chart that hangs on the shelf already.
#[derive(Clone, Copy)]
pub struct Case<'a> {
    pub alloc: Global,
    pub rig: &'a Rig,
    pub expected: &'a Expected,
    pub guest: Guest,
}

impl Case<'_> {
    /// A sheet of so many bytes with nothing on it.
    fn blank(&self, length: usize) -> Result<Vec<u8>, AllocError> {
        vec![in self.alloc; UNWRITTEN; length]
    }

    /// Plans with a sheet of more bytes than the run has moves.
    fn with_long_sheet<S: Shelf>(&self, shelf: &mut S) -> anyhow::Result<Ending> {
        let moves = self.expected.moves.as_slice();
        let mut sheet = self.blank(moves.len().saturating_add(SPARE))?;
        match plan(self.rig, shelf, sheet.as_mut_slice()) {
            Ok(answer) => {
                let searched = self.expected.answer;
                ensure!(
                    answer == searched,
                    "{answer:?}, but the search says {searched:?}"
                );
                is_written(sheet.as_slice(), moves)?;
                Ok(Ending::Agreed)
            }
            Err(
                PlanFault::NoRoom {
                    fault: ShelfFault::NoRoom,
                    ..
                },
            ) => {
                is_written(sheet.as_slice(), &[])?;
                Ok(Ending::NoRoom)
            }
            Err(fault) => bail!("sent back with {}", fault.number()),
        }
    }

    /// Plans with a sheet of one byte less than the run has moves. Where there is no room, that is the answer still.
    fn with_short_sheet<S: Shelf>(&self, shelf: &mut S, ending: Ending) -> anyhow::Result<()> {
        let needed = self.expected.moves.len();
        let mut sheet = self.blank(needed.saturating_sub(1))?;
        let answer = plan(self.rig, shelf, sheet.as_mut_slice());
        let is_right = match ending {
            Ending::Agreed => needed == 0 || answer == Err(PlanFault::SheetShort { needed }),
            Ending::NoRoom => matches!(&answer, Err(PlanFault::NoRoom { .. })),
        };
        ensure!(is_right, "a sheet too short for {needed} moves: {answer:?}");
        is_written(sheet.as_slice(), &[])
    }

    /// Plans twice on a shelf where the guest hangs, if it has room.
    fn on<S: Shelf>(&self, shelf: &mut S) -> anyhow::Result<Ending> {
        let is_hung = self.guest.hang(shelf)?;
        let ending = self.with_long_sheet(shelf)?;
        self.with_short_sheet(shelf, ending)?;
        if is_hung {
            self.guest.is_kept(shelf)?;
        }
        Ok(ending)
    }

    /// Plans on a flat shelf, which has room for every chart.
    pub fn on_flat(&self, scenes: usize) -> anyhow::Result<()> {
        let cells = vec![in self.alloc; None; scenes.saturating_mul(PEGS)]?;
        let mut shelf = FlatShelf::open(self.rig.settings(), cells).map_err(|refused| {
            anyhow!("the flat shelf does not open: {}", refused.fault.number())
        })?;
        let ending = self.on(&mut shelf)?;
        ensure!(ending == Ending::Agreed, "no room on a flat shelf");
        Ok(())
    }

    /// Plans on a diagram shelf with so many node slots.
    fn on_diagram(&self, slots: usize) -> anyhow::Result<Ending> {
        let mut shelf = DiagramShelf::open(self.alloc, self.rig.settings(), slots)?;
        self.on(&mut shelf)
    }

    /// Plans on a diagram shelf of each capacity.
    pub fn on_diagrams(&self, tally: &mut Tally) -> anyhow::Result<()> {
        for (slots, no_rooms) in CAPACITIES.iter().zip(tally.no_rooms.iter_mut()) {
            let ending = self
                .on_diagram(*slots)
                .context(format_args!("a diagram shelf of {slots} slots"))?;
            add_to(no_rooms, u64::from(ending == Ending::NoRoom));
        }
        Ok(())
    }
}
