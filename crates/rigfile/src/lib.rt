//! Rig files: written into a buffer, and read.
#![tactic(auto)]

mod adder;
mod devices;
mod entries;
pub mod fault;
mod front;
mod pairs;
pub mod promises;
pub mod read;
mod sizes;
mod taker;
#[cfg(test)]
mod tests;
pub mod unread;
pub mod write;
mod writer;
