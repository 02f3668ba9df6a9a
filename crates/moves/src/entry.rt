use crate::pair::*;
use lists::limits::*;
use lists::short::Short;

/// An extra time where the tests all hold.
#[derive(Clone, Copy)]
pub struct Surcharge {
    pub(crate) tests: Short<Pair, MOST_TESTS>,
    pub(crate) extra: u16,
}

/// A move as a slot holds it (an action of planning: preconditions, effects, and a cost that depends on the state).
#[derive(Clone, Copy)]
pub struct Move {
    pub(crate) conditions: Short<Pair, MOST_CONDITIONS>,
    pub(crate) effects: Short<Pair, MOST_EFFECTS>,
    pub(crate) base: u16,
    pub(crate) surcharges: Short<Surcharge, MOST_SURCHARGES>,
}
