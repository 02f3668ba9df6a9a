//! The rig file as a list of bytes. Each function's contract is a theorem about the definitions in specs/; none does
//! anything.
#![tactic(auto)]

ghost use Rattle.format.specs.Evening.{EveningFile};
ghost use Rattle.format.specs.Laws.{OneReading, OneFile, EveryFile, PlacedBack, Prefixes};
ghost use Rattle.format.specs.Reading.{TakenBack, ListsAsTaken};

pub fn parts_are_prefix_codes()
    ensures { Prefixes }
{}

pub fn a_file_has_one_reading()
    ensures { OneReading }
{}

pub fn a_rig_has_one_file()
    ensures { OneFile }
{}

pub fn every_rig_has_a_file()
    ensures { EveryFile }
{}

pub fn moves_are_placed_back()
    ensures { PlacedBack }
{}

pub fn the_evening_has_its_file()
    ensures { EveningFile }
{}

pub fn what_a_rig_lists_is_taken_as_that_rig()
    ensures { TakenBack }
{}

pub fn what_is_taken_lists_what_was_read()
    ensures { ListsAsTaken }
{}
