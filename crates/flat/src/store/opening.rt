ghost use Rattle.std.specs.Prelude.{◌≡◌, MatchResult};
ghost use Rattle.model.specs.Shelves.{flat_opens};
ghost use Rattle.shelf.specs.Shapes.{shape_of};
ghost use Rattle.flat.specs.Openings.{number as the_number, Opened};

use crate::store::FlatShelf;
use lists::limits::PEGS;
use shelf::shape::Shape;
use std::error::Error;
use std::fmt;

/// Why a flat shelf does not open.
#[derive(Clone, Copy, PartialEq, Eq, Debug)]
pub enum OpenFault {
    /// The number of devices, or of settings of one, is outside its limits.
    CountsOff = 1,
    /// The memory has no cell for each scene and peg.
    MemoryShort = 3,
}

impl OpenFault {
    /// The number of the refusal.
    pub fn number(self) -> u8
        ensures value { result ≡ the_number self }
    {
        self as u8
    }

    /// What was wrong.
    fn words(&self) -> &'static str {
        match self {
            OpenFault::CountsOff => "a shelf has 1 to 12 devices of 2 to 8 settings",
            OpenFault::MemoryShort => "the memory has no cell for each scene and peg",
        }
    }
}

impl fmt::Display for OpenFault {
    fn fmt<W: fmt::Write>(&self, f: &mut fmt::Formatter<W>) -> fmt::Result {
        let number = self.number();
        let words = self.words();
        write!(f, "refused {number}: {words}")
    }
}

impl Error for OpenFault {}

/// A refusal to open, with the memory as it was handed over.
// A rig has one too, with a table of slots: a type for both, in a crate below both, would not name what is handed back.
#[derive(Drop)]
pub struct Unopened {
    pub fault: OpenFault,
    pub cells: Vec<Option<u64>>,
}

/// The shape with these counts of settings, where so many cells are enough for it.
fn fitting(settings: &[u8], cells: usize) -> Result<Shape, OpenFault>
    ensures { MatchResult result (λ s. (flat_opens settings.now cells ≡ Ok tt) × (shape_of s ≡ settings.now)) (λ f. flat_opens settings.now cells ≡ Err (the_number f)) }
{
    let shape = Shape::of(settings).ok_or(OpenFault::CountsOff)?;
    if cells < PEGS * shape.scenes() {
        return Err(OpenFault::MemoryShort);
    }
    Ok(shape)
}

impl FlatShelf {
    /// A shelf of the shape with every peg bare, in the memory handed over.
    pub fn open(settings: &[u8], cells: Vec<Option<u64>>) -> Result<FlatShelf, Unopened>
        ensures answer { Opened settings.now cells result }
    {
        // No `map_err` and `?`: the closure would take the cells that an accepted opening keeps.
        match fitting(settings, cells.len()) {
            Ok(shape) => Ok(FlatShelf {
                shape,
                cells,
                hung: [false; PEGS],
            }),
            Err(fault) => Err(Unopened { fault, cells }),
        }
    }
}
