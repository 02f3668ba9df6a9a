//! The rig in a file, planned on one of the shelves.
ghost use Rattle.std.specs.Prelude.{◌≡◌, false};
ghost use Rattle.model.specs.Scenes.{shape_off};
ghost use Rattle.embed.specs.Opens.{Celled};
ghost use Rattle.embed.specs.Plans.{OnNodes, OnCells};

use crate::reading::rig_of;
use crate::unfiled::Unfiled;
use crate::unplanned::Unplanned;
use diagram::diagram_shelf::DiagramShelf;
use flat::store::FlatShelf;
use lists::limits::PEGS;
use planner::answer::Plan;
use planner::planning::plan;
use shelf::shape::Shape;
use std::alloc::Global;

/// Plans on a diagram shelf of so many node slots.
pub(crate) fn on_nodes(
    heap: Global,
    file: &[u8],
    nodes: usize,
    sheet: &mut [u8],
) -> Result<Plan, Unplanned>
    ensures { OnNodes file.now nodes sheet.old result sheet.new }
{
    let rig = rig_of(heap, file)?;
    let mut shelf = DiagramShelf::open(heap, rig.settings(), nodes)?;
    Ok(plan(&rig, &mut shelf, sheet)?)
}

/// A flat shelf of a shape, where there is memory for it.
fn cells(heap: Global, settings: &[u8]) -> Result<FlatShelf, Unfiled>
    requires { shape_off settings.now ≡ false }
    ensures { Celled settings.now result }
{
    let shape = Shape::of(settings).unwrap();
    let cells = Vec::from_elem(heap, None, PEGS * shape.scenes()).map_err(|_| Unfiled::NoMemory)?;
    Ok(FlatShelf::open(settings, cells).unwrap())
}

/// Plans on a flat shelf.
pub(crate) fn on_cells(heap: Global, file: &[u8], sheet: &mut [u8]) -> Result<Plan, Unplanned>
    ensures { OnCells file.now sheet.old result sheet.new }
{
    let rig = rig_of(heap, file)?;
    let mut shelf = cells(heap, rig.settings())?;
    Ok(plan(&rig, &mut shelf, sheet)?)
}
