//! What a call of a show answered, in a line that names the call.
use moves::fault::RigFault;
use planner::answer::Plan;
use show::cue::Cue;
use std::{fmt, io};
use steps::fault::PlanFault;

/// What a call answered, printed as that or as the number of its refusal.
#[derive(Drop)]
struct Answer<T>(Result<T, u8>);

impl<T: fmt::Display> fmt::Display for Answer<T> {
    fn fmt<W: fmt::Write>(&self, f: &mut fmt::Formatter<W>) -> fmt::Result {
        match &self.0 {
            Ok(answer) => write!(f, "{answer}"),
            // Not the fault's own words: a line of the run names the refusal by its number.
            Err(number) => write!(f, "refused {number}"),
        }
    }
}

/// What a plan says, in words.
#[derive(Clone, Copy)]
struct PlanWords(Plan);

impl fmt::Display for PlanWords {
    fn fmt<W: fmt::Write>(&self, f: &mut fmt::Formatter<W>) -> fmt::Result {
        match self.0 {
            Plan::Way {
                moves,
                time,
                rounds,
            } => write!(f, "way {moves} moves {time} tenths {rounds} rounds"),
            Plan::NoWay { rounds } => write!(f, "no way {rounds} rounds"),
        }
    }
}

/// What a call on a move of the rig answered.
fn of_move<T: fmt::Display + Drop>(
    rt: &HostRuntime,
    call: &str,
    number: usize,
    reply: Result<T, RigFault>,
) -> io::Result<()> {
    let answer = Answer(reply.map_err(|fault| fault.number()));
    println!(rt; "{call} {number}: {answer}")
}

/// How many scenes are wanted.
fn of_masks(rt: &HostRuntime, reply: Result<u64, RigFault>) -> io::Result<()> {
    match reply {
        Ok(scenes) => println!(rt; "want: {scenes} wanted"),
        Err(fault) => println!(rt; "want: refused {}", fault.number()),
    }
}

/// What a plan answered, and the moves that it left on the sheet.
fn of_plan(rt: &HostRuntime, sheet: &[u8], reply: Result<Plan, PlanFault>) -> io::Result<()> {
    let answer = Answer(reply.map(PlanWords).map_err(|fault| fault.number()));
    println!(rt; "plan: {answer}")?;
    if let Ok(Plan::Way { moves, .. }) = reply {
        for number in sheet.iter().take(moves) {
            println!(rt; "  move {number}")?;
        }
    }
    Ok(())
}

/// The call that a cue stands for, and what it answered.
pub(crate) fn answered<S>(rt: &HostRuntime, cue: &Cue<'_, S>) -> io::Result<()> {
    match cue {
        Cue::Add {
            number,
            reply: Some(reply),
            ..
        } => of_move(rt, "add", *number, reply.map(|()| "done")),
        Cue::Retime {
            number,
            reply: Some(reply),
            ..
        } => of_move(rt, "retime", *number, reply.map(|()| "done")),
        Cue::Withdraw {
            number,
            reply: Some(reply),
        } => of_move(rt, "withdraw", *number, reply.map(|()| "done")),
        Cue::Perform {
            number,
            reply: Some(reply),
        } => of_move(rt, "perform", *number, *reply),
        Cue::Want {
            reply: Some(reply),
            ..
        } => of_masks(rt, *reply),
        Cue::Plan {
            sheet,
            reply: Some(reply),
            ..
        } => of_plan(rt, sheet.as_slice(), *reply),
        _ => println!(rt; "not called"),
    }
}
