//! Normalised nodes, interned one by one: what every operation on a store is built of.
#![tactic(auto)]

pub mod lowering;
pub mod make;
pub mod node_store;
pub mod reach;
