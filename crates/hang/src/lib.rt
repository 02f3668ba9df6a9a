//! Charts hung on pegs: an operation is tried, and once more after collecting; no room exactly where the fill exceeds
//! the slots.
#![tactic(auto)]

pub mod charts;
pub mod task;
