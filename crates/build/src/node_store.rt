ghost use Rattle.lists.specs.Shorts.{listed};
ghost use Rattle.build.specs.Builds.{Ready};
ghost use Rattle.build.specs.Once.{ready_prop};

use lists::limits::MOST_DEVICES;
use lists::short::Short;
use nodes::node::Node;

/// The nodes of diagrams over one shape, in a fixed number of slots: no node twice, each normalised.
// Settings, and not the `Shape` of shelves: a store asks less of the counts. So `devices` and `count` are its own.
#[derive(Drop)]
pub struct NodeStore {
    settings: Short<u8, MOST_DEVICES>,
    nodes: Vec<Option<Node>>,
    ghost ready: { Ready nodes.items (listed settings) } by { ready_prop nodes.items (listed settings) },
}

pub mod growing;
pub mod opening;
pub mod reading;
pub mod zero;
