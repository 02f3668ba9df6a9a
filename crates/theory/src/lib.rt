// Value iteration and the greedy walk on a finite transition system whose actions cost time, and the system that the
// moves of a rig make. Each function's contract is a theorem about the definitions in specs/; none does anything.
#![tactic(auto)]

pub mod iteration;
pub mod rigs;
pub mod walks;
