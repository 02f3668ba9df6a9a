//! Lemmas on the parts of charts and on how many different ones there are.
#![tactic(auto)]

ghost use Rattle.parts.specs.Counting.{Room, NoRoom, Shifts};

/// Names for all parts of a list: there are no more different parts than names.
pub fn parts_have_room()
    ensures { Room }
{}

/// Different names, all of them parts of a list, and one more part: there are more different parts than names.
pub fn parts_have_no_room()
    ensures { NoRoom }
{}

/// A chart that is later throughout has the same parts.
pub fn shifts_keep_parts()
    ensures { Shifts }
{}
