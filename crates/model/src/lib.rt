// Definitions and laws over plain lists and numbers. Each function's contract is a theorem about the definitions in
// specs/; none does anything.
#![tactic(auto)]

pub mod calls;
pub mod charts;
pub mod scenes;
