//! The rounds of the planning rule on any shelf, until one makes no scene cheaper.
#![tactic(auto)]

pub mod iterate;
mod rounds;
