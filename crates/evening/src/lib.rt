//! The worked evening: each of its cases, proved of the definitions that the contracts of the calls name. The function
//! does nothing; its contract is a theorem.
#![tactic(auto)]

ghost use Rattle.std.specs.List.{AllByRecursion};
ghost use Rattle.evening.specs.Cases.{Holds};
ghost use Rattle.evening.specs.Evening.{cases};

/// Every case of the worked evening comes out as told.
pub fn every_case_of_the_evening_holds()
    ensures { AllByRecursion Holds cases }
{}
