// Value iteration finds the least times of runs, and stops.
ghost use Rattle.theory.specs.Iteration.{RoundsRight, SettledRight, AnySettledRight};
ghost use Rattle.theory.specs.Stops.{RoundsStop, TimesBounded, ChartsRight};

pub fn rounds_are_right()
    ensures { RoundsRight }
{}

pub fn settled_is_right()
    ensures { SettledRight }
{}

pub fn any_settled_is_right()
    ensures { AnySettledRight }
{}

pub fn rounds_stop()
    ensures { RoundsStop }
{}

pub fn times_are_bounded()
    ensures { TimesBounded }
{}

pub fn charts_are_right()
    ensures { ChartsRight }
{}
