ghost use Rattle.std.specs.Prelude.{◌≡◌, false, Some};
ghost use Rattle.model.specs.Charts.{late};
ghost use Rattle.apply.specs.Splits.{split_of, skipped, edge_of};

use nodes::edge::Edge;
use nodes::remembered::Op;

/// An edge with a time.
#[derive(Clone, Copy)]
pub struct TimedEdge {
    pub weight: u64,
    pub child: u16,
}

/// The edge whose weight is the time.
impl From<TimedEdge> for Edge {
    ghost from_gives = { λ x e. e ≡ edge_of x };

    fn from(x: TimedEdge) -> Edge {
        Edge {
            weight: Some(x.weight),
            child: x.child,
        }
    }
}

/// Two weights as what they have in common and what is left of each.
#[derive(Clone, Copy)]
pub struct Weights {
    pub base: u64,
    pub left: u64,
    pub right: u64,
}

/// What two weights have in common under an operation: it is added to the result once the rest is joined.
// No method of `Op`: the crate of nodes knows nothing of weights in common.
pub fn split(op: Op, a: u64, b: u64) -> Weights
    requires left { late (Some a) ≡ false }
    requires right { late (Some b) ≡ false }
    ensures { result ≡ split_of op a b }
{
    match op {
        Op::Cheaper => {
            let base = a.min(b);
            Weights {
                base,
                left: a - base,
                right: b - base,
            }
        }
        Op::Sum => Weights {
            base: a + b,
            left: 0,
            right: 0,
        },
    }
}

/// The result where one of the two is never throughout.
// No method of `Op`: the crate of nodes knows nothing of what an operation does with charts.
pub fn skip(op: Op, never: Edge, other: Edge) -> Edge
    ensures { result ≡ skipped op never other }
{
    match op {
        Op::Cheaper => other,
        Op::Sum => never,
    }
}
