use moves::entry::Move;
use moves::fault::RigFault;

/// A refused opening: why, and the table of slots as it was handed over.
// A flat shelf has one too, with its cells: a type for both, in a crate below both, would not name what is handed back.
#[derive(Drop)]
pub struct Unopened {
    pub fault: RigFault,
    pub slots: Vec<Option<Move>>,
}
