//! The diagram shelf: charts as edge-valued decision diagrams in a fixed number of node slots.
#![tactic(auto)]

pub mod diagram_shelf;
pub mod open_fault;
#[cfg(test)]
mod tests;
