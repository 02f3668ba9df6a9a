//! What a store of nodes keeps, and why it is canonical and counts parts exactly.
#![tactic(auto)]

ghost use Rattle.store.specs.Fillings.{Canonical, Roomy, Overfull};

/// Edges with the same chart are the same edge.
pub fn store_is_canonical()
    ensures { Canonical }
{}

/// What a store holds has no more different parts than the store has slots.
pub fn store_has_room()
    ensures { Roomy }
{}

/// A store that has grown by parts only, and has no slot for one more, is overfull.
pub fn store_is_overfull()
    ensures { Overfull }
{}
