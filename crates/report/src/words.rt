//! Refusals of planning in words: what happened, where, and what would help.
use std::fmt;
use steps::fault::PlanFault;
use steps::hanging::Hanging;

/// A call on a shelf, in words.
// A type for its `Display` alone: what is printed is a part of a line of the program, and not what a call is.
#[derive(Clone, Copy)]
struct CallWords {
    call: Hanging,
}

impl fmt::Display for CallWords {
    fn fmt<W: fmt::Write>(&self, f: &mut fmt::Formatter<W>) -> fmt::Result {
        match self.call {
            Hanging::Dial { target, device, .. } => write!(
                f,
                "the dial of device {device} onto peg {target}"
            ),
            Hanging::Cheaper {
                target,
                left,
                right,
            } => {
                write!(
                    f,
                    "the cheaper of pegs {left} and {right} onto peg {target}"
                )
            }
            Hanging::Sum {
                target,
                left,
                right,
            } => write!(f, "the sum of pegs {left} and {right} onto peg {target}"),
            Hanging::Put {
                target,
                source,
                device,
                setting,
            } => {
                write!(
                    f,
                    "peg {source} with device {device} put at {setting}, onto peg {target}"
                )
            }
        }
    }
}

/// The move that was worked on, if one was, in words.
#[derive(Clone, Copy)]
struct MoveWords {
    number: Option<u8>,
}

impl fmt::Display for MoveWords {
    fn fmt<W: fmt::Write>(&self, f: &mut fmt::Formatter<W>) -> fmt::Result {
        match self.number {
            Some(number) => write!(f, ", at move {number}"),
            None => write!(f, ", between moves"),
        }
    }
}

/// Why a plan was sent back from a shelf of so many slots, in words.
#[derive(Clone, Copy, PartialEq, Eq, Debug)]
pub struct PlanWords {
    pub fault: PlanFault,
    pub slots: usize,
}

impl fmt::Display for PlanWords {
    fn fmt<W: fmt::Write>(&self, f: &mut fmt::Formatter<W>) -> fmt::Result {
        let slots = self.slots;
        match self.fault {
            PlanFault::ShapesDiffer => write!(
                f,
                "refused 17: rig and shelf differ in shape\nwhat would help: a shelf of the rig's settings counts"
            ),
            PlanFault::NoRoom {
                call,
                round,
                number,
                ..
            } => {
                let call = CallWords { call };
                let at = MoveWords { number };
                writeln!(
                    f,
                    "refused 18: no room: the charts of the plan need more than the {slots} node slots there are"
                )?;
                writeln!(f, "where: {call}, in round {round}{at}")?;
                write!(
                    f,
                    "what would help: more node slots, fewer devices, moves or surcharges, or wider masks"
                )
            }
            PlanFault::SheetShort { needed } => {
                write!(
                    f,
                    "refused 19: sheet short: the way has {needed} moves, and the sheet fewer bytes\nwhat would help: a sheet of {needed} bytes"
                )
            }
        }
    }
}
