//! The copying collector: what some edges reach, in another store.
#![tactic(auto)]

pub mod collector;
pub mod moved;
