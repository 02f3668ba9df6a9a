//! Charts on pegs as edges into a store of nodes.
#![tactic(auto)]

pub mod sweep;
