// The moves of a rig make a lawful transition system, whose runs are the runs of accepted performs.
ghost use Rattle.theory.specs.Wellformed.{ContentsTold};
ghost use Rattle.theory.specs.Tables.{MovesLawful, TablesLawful};
ghost use Rattle.theory.specs.Keeping.{OpeningsLawful, CallsKeep};
ghost use Rattle.theory.specs.Performing.{WaysAreRuns, PerformsKeep};
ghost use Rattle.theory.specs.Ways.{WalksBest, NeverNone};
ghost use Rattle.theory.specs.Alike.{WaysAlike, BestAlike};

pub fn lawful_contents_are_well_formed()
    ensures { ContentsTold }
{}

pub fn lawful_moves_make_lawful_tables()
    ensures { MovesLawful }
{}

pub fn lawful_contents_have_lawful_tables()
    ensures { TablesLawful }
{}

pub fn performs_change_the_scene_alone()
    ensures { PerformsKeep }
{}

pub fn ways_are_runs()
    ensures { WaysAreRuns }
{}

pub fn greedy_walks_are_best_ways()
    ensures { WalksBest }
{}

pub fn never_means_no_way()
    ensures { NeverNone }
{}

pub fn openings_leave_lawful_contents()
    ensures { OpeningsLawful }
{}

pub fn alike_contents_have_the_same_ways()
    ensures { WaysAlike }
{}

pub fn calls_keep_contents_lawful()
    ensures { CallsKeep }
{}

pub fn alike_contents_have_one_best_way()
    ensures { BestAlike }
{}
