//! Planning: the quickest run of moves to a wanted scene, found on a shelf of charts by value iteration.
#![tactic(auto)]

pub mod answer;
pub mod planning;
mod point;
mod walk;

pub use steps::{fault, halt, hanging};
