ghost use Rattle.std.specs.Prelude.{◌*◌, ◌≤◌, vec_len};
ghost use Rattle.model.specs.Limits.{peg_count};
ghost use Rattle.model.specs.Scenes.{size};
ghost use Rattle.shelf.specs.Shapes.{shape_of};
ghost use Rattle.flat.specs.Rows.{Timely};

use lists::limits::PEGS;
use shelf::shape::Shape;

/// A shelf over memory of its own: a row of cells for each peg, of which that of a bare peg is free.
#[derive(Drop)]
pub struct FlatShelf {
    shape: Shape,
    cells: Vec<Option<u64>>,
    // Flags beside the rows: a peg's row stays where it is whether or not a chart hangs, so that hanging moves nothing.
    hung: [bool; PEGS],
    ghost room: { peg_count * size (shape_of shape) ≤ vec_len cells },
    ghost timely: { Timely (shape_of shape) cells.items hung },
}

pub mod calls;
pub mod hanging;
mod numbers;
pub mod opening;
