//! Two charts joined device by device, with remembered results.
#![tactic(auto)]

pub mod join;
pub mod split;
