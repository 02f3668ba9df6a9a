//! A rig file planned: what comes of the bytes that the program is fed.
#![tactic(auto)]

pub mod failure;
mod file;
mod input;
pub mod limits;
pub mod outcome;
mod performing;
pub mod planning;
mod words;
