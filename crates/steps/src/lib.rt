//! The calls of the planning rule on any shelf: one by one, and the blocks of calls of a move.
#![tactic(auto)]

pub mod blocks;
pub mod dials;
pub mod fault;
pub mod halt;
pub mod hang;
pub mod hanging;
pub mod round;
