// The planning rule as a list of calls on a shelf. Each function's contract is a theorem about the definitions in
// specs/; none does anything.
#![tactic(auto)]

ghost use Rattle.rule.specs.Bridge.{MovesTried, RoundsRun, StartsRun, RoundsShown, RoundsCounted, CountsAlike};
ghost use Rattle.rule.specs.Bridge.{RuleGoesOn, RuleRight, RuleOnlyRoom};
ghost use Rattle.rule.specs.Running.{OverfillingTold};

pub fn moves_are_tried()
    ensures { MovesTried }
{}

pub fn rounds_are_run()
    ensures { RoundsRun }
{}

pub fn starts_are_run()
    ensures { StartsRun }
{}

pub fn rounds_are_shown()
    ensures { RoundsShown }
{}

pub fn rounds_are_counted()
    ensures { RoundsCounted }
{}

pub fn alike_contents_count_the_same_rounds()
    ensures { CountsAlike }
{}

pub fn rule_goes_on_while_rounds_count()
    ensures { RuleGoesOn }
{}

pub fn rule_is_right()
    ensures { RuleRight }
{}

pub fn rule_is_refused_for_room_alone()
    ensures { RuleOnlyRoom }
{}

pub fn first_overfilling_is_told()
    ensures { OverfillingTold }
{}
