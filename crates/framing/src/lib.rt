//! Whether bytes have the frame of a rig file. Nothing is allocated.
#![tactic(auto)]

pub mod frames;
pub mod heads;
pub mod reader;
