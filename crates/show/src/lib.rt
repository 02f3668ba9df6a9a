//! A whole show: an opening, and a list of calls that are made one after another.
#![tactic(auto)]

pub mod cue;
pub mod play;
