//! A rig as plain data, from which the rig is made, and which the search reads in its own way.
use lists::names::Name;
use moves::pair::Pair;

/// A surcharge: the extra where all tests hold.
#[derive(Drop)]
pub struct PlainSurcharge {
    pub tests: Vec<Pair>,
    pub extra: u16,
}

/// A move, with the number of its slot.
#[derive(Drop)]
pub struct PlainMove {
    pub number: u8,
    pub conditions: Vec<Pair>,
    pub effects: Vec<Pair>,
    pub base: u16,
    pub surcharges: Vec<PlainSurcharge>,
}

/// A rig. Its moves stand by rising number.
#[derive(Drop)]
pub struct PlainRig {
    pub settings: Vec<u8>,
    pub names: Vec<Name>,
    pub scene: Vec<u8>,
    pub masks: Vec<u8>,
    /// How many slots the table of moves has.
    pub slots: u8,
    pub moves: Vec<PlainMove>,
}
