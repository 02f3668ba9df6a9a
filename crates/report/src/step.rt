//! A line for each move of a way.
ghost use Rattle.std.specs.Prelude.{◌++◌, Some};
ghost use Rattle.report.specs.Lines.{step_line};

use std::fmt;

/// A move of a way: its number, and what it takes in tenths of a second.
#[derive(Clone, Copy, PartialEq, Eq, Debug)]
pub struct Step {
    pub number: u8,
    pub time: u64,
}

impl fmt::Display for Step {
    ghost output = { λ x. Some (step_line x.number x.time) };

    fn fmt<W: fmt::Write>(&self, f: &mut fmt::Formatter<W>) -> fmt::Result {
        let number = self.number;
        let time = self.time;
        write!(f, "{number} {time}")
    }
}
