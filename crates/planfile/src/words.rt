//! Failures in words: what happened, where, and what would help.
use crate::failure::Failure;
use crate::limits::*;
use report::words::PlanWords;
use std::fmt;

impl fmt::Display for Failure {
    fn fmt<W: fmt::Write>(&self, f: &mut fmt::Formatter<W>) -> fmt::Result {
        match self {
            Failure::Input(error) => write!(f, "the input cannot be read: {error}"),
            Failure::InputLong => write!(
                f,
                "refused 20: the input is no rig file: it has more than {MOST_INPUT} bytes\nwhere: after the last byte that a rig file may have\nwhat would help: one rig file, and nothing after it"
            ),
            Failure::Unread(fault) => write!(f, "{fault}"),
            Failure::Unopened(fault) => write!(f, "{fault}"),
            Failure::NoMemory => write!(
                f,
                "no memory for {MOVE_SLOTS} move slots, {NODE_SLOTS} node slots and a sheet of {SHEET_LENGTH} bytes\nwhat would help: more memory"
            ),
            Failure::Unplanned(fault) => {
                let words = PlanWords {
                    fault: *fault,
                    slots: NODE_SLOTS,
                };
                write!(f, "{words}")
            }
        }
    }
}
