//! Remembered results: the computed table, beside the store of the diagrams that they are of.
#![tactic(auto)]

pub mod diagrams;
pub mod results;
