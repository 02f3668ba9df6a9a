//! Moves as they are handed in: lists of any length, judged as a whole, and put into the bounded lists of a slot.
#![tactic(auto)]

mod bounded;
pub mod draft;
mod judge;
pub mod lawful;
