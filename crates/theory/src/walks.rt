// Where times are the least of all runs, the greedy walk is the first of the quickest runs.
ghost use Rattle.theory.specs.Walks.{BeforeTold, FirstFound, ZeroWanted, WalkRight, WalkFound};

pub fn order_is_told()
    ensures { BeforeTold }
{}

pub fn first_is_found()
    ensures { FirstFound }
{}

pub fn zero_is_wanted()
    ensures { ZeroWanted }
{}

pub fn walks_are_right()
    ensures { WalkRight }
{}

pub fn walks_are_found()
    ensures { WalkFound }
{}
