//! Reads a rig file from standard input, plans, and prints the answer.
#![tactic(auto)]

use planfile::outcome::Outcome;
use std::io;
use std::process::ExitCode;

fn main(rt: HostRuntime) -> io::Result<ExitCode> {
    let outcome = Outcome::of(rt.alloc(), rt.reader());
    print!(rt; "{outcome}")?;
    if let Some(failure) = outcome.failure() {
        eprintln!(rt; "{failure}")?;
    }
    Ok(ExitCode::from(outcome.status()))
}
