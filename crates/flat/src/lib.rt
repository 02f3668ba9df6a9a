// The flat shelf: a cell for each scene and peg.
#![tactic(auto)]

pub mod store;
