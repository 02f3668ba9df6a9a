ghost use Rattle.std.specs.Prelude.{◌≡◌, length};
ghost use Rattle.pegs.specs.Held.{Held};
ghost use Rattle.pegs.specs.Once.{held_prop};

use memo::diagrams::Diagrams;
use nodes::edge::Edge;

/// Charts on so many pegs: each peg is bare, or carries an edge into the store of the diagrams.
#[derive(Drop)]
pub struct Charts<const N: usize> {
    pub diagrams: Diagrams,
    pub pegs: [Option<Edge>; N],
    /// How many of a sample of slots may be taken before the store is collected early. Only speed depends on it.
    pub limit: usize,
    ghost as_many: { length pegs ≡ N },
    ghost held: { Held diagrams.store pegs } by { held_prop diagrams.store pegs },
}

pub mod attempt;
pub mod retry;
