//! Nodes and edges of edge-valued decision diagrams, and remembered results, as entries of open-addressed slots.
#![tactic(auto)]

pub mod edge;
pub mod hash;
pub mod node;
pub mod remembered;
