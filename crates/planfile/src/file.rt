//! A rig file read and planned.
ghost use Rattle.std.specs.Prelude.{IfSome};
ghost use Rattle.rig.specs.Rigs.{contents};
ghost use Rattle.planfile.specs.Coming.{Comes};
ghost use Rattle.planfile.specs.Steps.{ReadFrom, ShelfFor, PlannedAnew};

use crate::failure::Failure;
use crate::input::read_whole;
use crate::limits::*;
use crate::planning::plan_rig;
use diagram::diagram_shelf::DiagramShelf;
use report::told::Told;
use rig::frame::Rig;
use rigfile::read::read;
use std::alloc::Global;
use std::io::Read;

/// A rig from the bytes of its file, with as many move slots as the program has.
fn read_rig(heap: Global, bytes: &[u8]) -> Result<Rig, Failure>
    ensures read { ReadFrom bytes.now result }
{
    let slots = vec![in heap; None; MOVE_SLOTS]?;
    Ok(read(bytes, slots)?)
}

/// A shelf for a rig, with as many node slots as the program has.
fn open_shelf(heap: Global, rig: &Rig) -> Result<DiagramShelf, Failure>
    ensures opened { ShelfFor (contents rig.now) result }
{
    Ok(DiagramShelf::open(heap, rig.settings(), NODE_SLOTS)?)
}

/// Plans a rig on a shelf and a sheet of the program's lengths.
fn plan_anew(heap: Global, rig: Rig) -> Result<Told, Failure>
    ensures planned { PlannedAnew (contents rig) result }
{
    let shelf = open_shelf(heap, &rig)?;
    let sheet = vec![in heap; 0u8; SHEET_LENGTH]?;
    plan_rig(heap, rig, shelf, sheet)
}

/// Reads a rig file and plans it.
pub(crate) fn plan_file<R: Read + Drop>(heap: Global, input: R) -> Result<Told, Failure>
    ensures comes { IfSome (R.remaining input) (λ bytes. Comes bytes result) }
{
    let bytes = read_whole(heap, input)?;
    let rig = read_rig(heap, bytes.as_slice())?;
    plan_anew(heap, rig)
}
