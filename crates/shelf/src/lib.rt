// Charts on pegs: the calls that every shelf answers, what they mean, and how they refuse.
#![tactic(auto)]

pub mod calls;
mod counts;
pub mod fault;
pub mod numbers;
pub mod shape;
pub mod sides;
pub mod words;
