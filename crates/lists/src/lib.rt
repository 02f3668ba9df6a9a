//! Bounded lists, writing at a place, the finder of the first repeated entry, the limits, and what is tested against them.
#![tactic(auto)]

pub mod counts;
pub mod limits;
pub mod names;
pub mod places;
pub mod repeats;
pub mod short;
pub mod shorts;
