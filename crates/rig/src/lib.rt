//! A rig: the devices of a dome, a table of the moves that reset them, and the calls that open, change and perform.
#![tactic(auto)]

pub mod devices;
pub mod edit;
pub mod frame;
mod masks;
pub mod open;
mod opening;
pub mod perform;
mod slots;
pub mod unopened;
pub mod view;
pub mod want;
