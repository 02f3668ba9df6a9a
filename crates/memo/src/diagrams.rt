ghost use Rattle.build.specs.Grew.{nodes_in, shape_in};
ghost use Rattle.memo.specs.Once.{knows_prop};
ghost use Rattle.memo.specs.Results.{Knows};

use build::node_store::NodeStore;
use nodes::remembered::Remembered;

/// A store of nodes, with the results that are remembered of operations on its diagrams.
#[derive(Drop)]
pub struct Diagrams {
    pub store: NodeStore,
    memo: Vec<Option<Remembered>>,
    // how many results were put into the slots since they were cleared; only speed depends on it
    kept: usize,
    ghost known: { Knows (nodes_in store) (shape_in store) memo.items } by { knows_prop (nodes_in store) (shape_in store) memo.items },
}

pub mod growing;
pub mod remembering;
