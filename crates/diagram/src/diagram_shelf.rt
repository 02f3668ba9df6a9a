ghost use Rattle.std.specs.Prelude.{◌≡◌, false};
ghost use Rattle.model.specs.Scenes.{shape_off};
ghost use Rattle.build.specs.Grew.{shape_in};
ghost use Rattle.pegs.specs.Held.{Alike};
ghost use Rattle.pegs.specs.Once.{alike_prop};

use build::node_store::NodeStore;
use hang::charts::Charts;
use lists::limits::PEGS;

/// A shelf whose charts share the nodes of one store.
///
/// `spare` and `moved` are for collecting.
#[derive(Drop)]
pub struct DiagramShelf {
    charts: Charts<PEGS>,
    spare: NodeStore,
    moved: Vec<Option<u16>>,
    ghost legal: { shape_off (shape_in charts.diagrams.store) ≡ false },
    ghost alike: { Alike charts.diagrams.store spare } by { alike_prop charts.diagrams.store spare },
}

pub mod calls;
pub mod hanging;
mod numbers;
pub mod opening;
