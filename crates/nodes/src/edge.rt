/// An edge of a diagram: what it adds to every time below it, or never, and the slot of the node that it leads to.
///
/// An edge to the terminal has child 0.
// A slot's number and no box: nodes are shared by many edges, and after the opening there is no memory to be had.
#[derive(Clone, Copy, PartialEq, Eq)]
pub struct Edge {
    pub weight: Option<u64>,
    pub child: u16,
}

/// An edge that is never throughout.
pub const NEVER: Edge = Edge {
    weight: None,
    child: 0,
};
