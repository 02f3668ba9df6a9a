//! The library for callers in C: rigs come as files, moves and files go into buffers, answers are numbers.
#![tactic(auto)]

pub mod file_answer;
mod files;
mod performing;
pub mod plan_answer;
mod planning;
pub mod ran;
mod reading;
pub mod unfiled;
pub mod unperformed;
pub mod unplanned;
pub mod unrun;

ghost use Rattle.embed.specs.Plans.{OnNodes, OnCells};
ghost use Rattle.embed.specs.Told.{TellsPlan, TellsFile};
ghost use Rattle.embed.specs.Files.{Rewritten, Replayed};

use crate::file_answer::FileAnswer;
use crate::plan_answer::PlanAnswer;
use std::alloc::Global;

/// Plans the rig in a file on a diagram shelf of so many node slots. The moves of a way fill the sheet's front.
#[unsafe(no_mangle)]
pub extern "C" fn zomraey_plan(
    heap: Global,
    file: &[u8],
    nodes: usize,
    sheet: &mut [u8],
) -> PlanAnswer
    ensures { TellsPlan (λ r. OnNodes file.now nodes sheet.old r sheet.new) result }
{
    PlanAnswer::from(planning::on_nodes(heap, file, nodes, sheet))
}

/// Plans the rig in a file on a flat shelf. The moves of a way fill the sheet's front.
#[unsafe(no_mangle)]
pub extern "C" fn zomraey_plan_flat(heap: Global, file: &[u8], sheet: &mut [u8]) -> PlanAnswer
    ensures { TellsPlan (λ r. OnCells file.now sheet.old r sheet.new) result }
{
    PlanAnswer::from(planning::on_cells(heap, file, sheet))
}

/// Reads the rig in a file, and writes its file into the buffer.
#[unsafe(no_mangle)]
pub extern "C" fn zomraey_rewrite(heap: Global, file: &[u8], buffer: &mut [u8]) -> FileAnswer
    ensures { TellsFile (λ r. Rewritten file.now buffer.old r buffer.new) result }
{
    FileAnswer::from(files::rewrite(heap, file, buffer))
}

/// Performs a run of moves on the rig in a file, and writes the file of what it leaves into the buffer.
#[unsafe(no_mangle)]
pub extern "C" fn zomraey_perform(
    heap: Global,
    file: &[u8],
    run: &[u8],
    buffer: &mut [u8],
) -> FileAnswer
    ensures { TellsFile (λ r. Replayed file.now run.now buffer.old r buffer.new) result }
{
    FileAnswer::from(files::replay(heap, file, run, buffer))
}
