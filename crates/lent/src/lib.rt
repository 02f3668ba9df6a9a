//! Charts hung on pegs in slots that a caller lends: whoever has slots and no memory of its own, as an array or a part of
//! a larger one, gets the same promises as a shelf that owns its slots.
// Clauses say here what the types of a shelf say of slots that it owns: of a lent slice no type says it.
#![tactic(auto)]

pub mod attempts;
pub mod constants;
mod copying;
mod dialling;
pub mod hanging;
mod joins;
pub mod opening;
pub mod paths;
mod putting;
mod sweeping;
#[cfg(test)]
mod tests;
