//! What is printed of a plan.
ghost use Rattle.std.specs.Prelude.{Some};
ghost use Rattle.report.specs.Texts.{lines, told_text};

use crate::step::Step;
use std::fmt;

/// What a plan comes to. Times are in tenths of a second; the rounds are those that made some scene cheaper.
#[derive(Drop)]
pub enum Told {
    /// There is a way: its moves, and the time that they take together.
    Way {
        steps: Vec<Step>,
        time: u64,
        rounds: u64,
    },
    /// No run of moves leads to a wanted scene.
    NoWay {
        rounds: u64,
    },
}

/// The moves of a way, a line for each.
#[derive(Clone, Copy)]
struct Lines<'a> {
    steps: &'a [Step],
}

impl fmt::Display for Lines<'_> {
    ghost output = { λ x. Some (lines x.steps.now) };

    fn fmt<W: fmt::Write>(&self, f: &mut fmt::Formatter<W>) -> fmt::Result {
        for step in self.steps {
            writeln!(f, "{step}")?;
        }
        Ok(())
    }
}

impl fmt::Display for Told {
    ghost output = { λ x. Some (told_text x) };

    fn fmt<W: fmt::Write>(&self, f: &mut fmt::Formatter<W>) -> fmt::Result {
        match self {
            Told::Way {
                steps,
                time,
                rounds,
            } => {
                let moves = steps.len();
                let lines = Lines {
                    steps: steps.as_slice(),
                };
                write!(
                    f,
                    "way {moves} moves {time} tenths {rounds} rounds\n{lines}"
                )
            }
            Told::NoWay { rounds } => writeln!(f, "no way {rounds} rounds"),
        }
    }
}
