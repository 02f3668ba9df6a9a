ghost use Rattle.std.specs.Prelude.{◌≡◌, map};
ghost use Rattle.store.specs.Stores.{lowest};
ghost use Rattle.build.specs.Builds.{lower_by};

use nodes::edge::Edge;

/// The least weight.
// Of edges alone, as all here, and no method of `NodeStore`: no node of a store has these edges yet.
pub fn least(edges: &[Edge]) -> Option<u64>
    ensures { result ≡ lowest edges.now }
{
    edges.iter().filter_map(|e| e.weight).min()
}

/// An edge with a time subtracted from its weight.
fn lower(e: Edge, by: Option<u64>) -> Edge
    ensures { result ≡ lower_by by e }
{
    match (by, e.weight) {
        (Some(by), Some(weight)) => Edge {
            weight: Some(weight.saturating_sub(by)),
            ..e
        },
        _ => e,
    }
}

/// The edges with a time subtracted from each weight.
pub fn lower_all(kids: [Edge; 8], by: Option<u64>) -> [Edge; 8]
    ensures { result ≡ map (lower_by by) kids }
{
    if by == Some(0) {
        return kids;
    }
    kids.map(|kid| lower(kid, by))
}
