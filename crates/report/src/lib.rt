//! What is printed of a plan, line by line, and its refusals in words.
#![tactic(auto)]

pub mod step;
#[cfg(test)]
mod tests;
pub mod told;
pub mod words;
