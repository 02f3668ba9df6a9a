// The order of the scenes: each function's contract is a theorem.
ghost use Rattle.model.specs.Ranks.{Counted, Tabulated};

pub fn scenes_are_counted()
    ensures { Counted }
{}

pub fn charts_are_tabulated()
    ensures { Tabulated }
{}
