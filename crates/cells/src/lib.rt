// Rows of cells, a time or never in each: joined, dialled and put.
#![tactic(auto)]

pub mod joins;
pub mod rows;
pub mod runs;
