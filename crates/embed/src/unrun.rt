use moves::fault::RigFault;

/// Why a run is not performed.
#[derive(Clone, Copy, PartialEq, Eq, Debug)]
pub enum Unrun {
    /// It has 2 ^ 32 moves or more.
    TooLong,
    /// A move of it is refused: why, and its place in the run.
    Refused { fault: RigFault, place: usize },
}
