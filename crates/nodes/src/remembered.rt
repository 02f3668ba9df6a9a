ghost use Rattle.std.specs.Prelude.{◌≡◌, ◌^◌, ◌<◌};
ghost use Rattle.nodes.specs.Keys.{SameKey, first_of, initial_of, rank as the_rank};
ghost use Rattle.std.proofs.Common.{rules};

use crate::edge::Edge;
use crate::hash;
use table::entry::Entry;

/// An operation on the two entries of a scene.
#[derive(Clone, Copy, PartialEq, Eq)]
pub enum Op {
    Cheaper,
    Sum,
}

/// An operation whose results are remembered: two charts joined, or a chart once a device is at a setting.
#[derive(Clone, Copy, PartialEq, Eq)]
pub enum Operation {
    Join(Op),
    Put(u8, u8),
}

/// An operation on two edges of a level, or on one, which then stands twice.
#[derive(Clone, Copy, PartialEq, Eq)]
pub struct Key {
    pub operation: Operation,
    pub level: u8,
    pub left: Edge,
    pub right: Edge,
}

impl Operation {
    /// A number that tells operations apart.
    fn rank(self) -> u32
        ensures value { result ≡ the_rank self }
        ensures bound { result < 2 ^ 17 }
    {
        match self {
            Operation::Join(Op::Cheaper) => 0,
            Operation::Join(Op::Sum) => 1,
            Operation::Put(device, setting) => 2 + 256 * u32::from(device) + u32::from(setting),
        }
    }

    /// What is mixed first where a search for a result of the operation starts.
    fn first(self, level: u8) -> u32
        ensures { result ≡ first_of self level }
    {
        256 * self.rank() + u32::from(level)
    }
}

/// The result of an operation.
#[derive(Clone, Copy)]
pub struct Remembered {
    pub key: Key,
    pub result: Edge,
}

/// The computed table: the key is all but the result.
impl Entry for Remembered {
    ghost alike = { SameKey };

    ghost initial = { initial_of };

    ghost reflexive = { Prim.search rules };

    ghost symmetric = { Prim.search rules };

    ghost transitive = { Prim.search rules };

    ghost together = { Prim.search rules };

    fn same_key(&self, other: &Remembered) -> bool {
        self.key == other.key
    }

    fn start(&self, slots: usize) -> usize {
        let first = self.key.operation.first(self.key.level);
        let edges = [self.key.left, self.key.right];
        hash::start(first, &edges, slots)
    }
}
