//! Moves as slots hold them: pairs, surcharges, what holds in a scene, what a move takes there and makes of it; what a mask admits.
#![tactic(auto)]

pub mod entry;
pub mod fault;
pub mod fit;
pub mod masks;
pub mod pair;
pub mod parts;
pub mod scene;
pub mod words;
