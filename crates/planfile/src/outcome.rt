//! What comes of a rig file.
ghost use Rattle.std.specs.Prelude.{◌≡◌, Some, Ok, Err, IfSome, MatchOption};
ghost use Rattle.report.specs.declared.told.Told.{Told};
ghost use Rattle.planfile.specs.Coming.{Comes};
ghost use Rattle.planfile.specs.Outcomes.{outcome_text, status as the_status};

use crate::failure::Failure;
use crate::file::plan_file;
use report::told::Told;
use std::alloc::Global;
use std::fmt;
use std::io::Read;

/// What comes of a rig file: what is told of its plan, or why there is none.
#[derive(Drop)]
pub struct Outcome {
    pub told: Result<Told, Failure>,
}

impl Outcome {
    /// What comes of the rig file that the input holds.
    pub fn of<R: Read + Drop>(heap: Global, input: R) -> Outcome
        ensures comes { IfSome (R.remaining input) (λ bytes. Comes bytes result.told) }
    {
        Outcome {
            told: plan_file(heap, input),
        }
    }

    /// The status that the program ends with: 0 where a plan is told, else 1.
    pub fn status(&self) -> u8
        ensures value { result ≡ the_status self.now.told }
    {
        u8::from(self.told.is_err())
    }

    /// Why there is no plan, where there is none.
    pub fn failure(&self) -> Option<&Failure>
        ensures why { MatchOption result ((told : Told) × (self.now.told ≡ Ok told)) (λ failure. self.now.told ≡ Err failure.now) }
    {
        self.told.as_ref().err()
    }
}

/// What the program prints on standard output.
impl fmt::Display for Outcome {
    ghost output = { λ x. Some (outcome_text x.told) };

    fn fmt<W: fmt::Write>(&self, f: &mut fmt::Formatter<W>) -> fmt::Result {
        match &self.told {
            Ok(told) => write!(f, "{told}"),
            Err(failure) => match failure.number() {
                Some(number) => writeln!(f, "refused {number}"),
                None => Ok(()),
            },
        }
    }
}
