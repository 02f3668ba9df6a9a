//! Open-addressed slots in a lent slice, written once for every kind of entry.
// By hand: the maps of the library take memory as they grow, and these slots are handed over once and stay as many.
#![tactic(auto)]

pub mod entry;
pub mod found;
pub mod slots;
