//! Plans the example rigs, an input that never ends, and one with nothing in it, and prints what comes of each.
#![tactic(auto)]

use planfile::outcome::Outcome;
use std::{fs, io};

const RIGS: [&str; 4] = ["evening.rig", "hot.rig", "fade.rig", "slip.rig"];

/// Prints what the program prints on standard output, and what it says on standard error.
fn report(rt: &HostRuntime, name: &str, outcome: Outcome) -> io::Result<()> {
    println!(rt; "{name}, status {}:", outcome.status())?;
    print!(rt; "{outcome}")?;
    if let Some(failure) = outcome.failure() {
        println!(rt; "{failure}")?;
    }
    Ok(())
}

fn main(rt: HostRuntime) -> io::Result<()> {
    for name in RIGS {
        let file = fs::open(&rt, name)?;
        report(&rt, name, Outcome::of(rt.alloc(), file))?;
    }
    report(&rt, "no end", Outcome::of(rt.alloc(), io::repeat(1)))?;
    report(&rt, "nothing", Outcome::of(rt.alloc(), io::empty()))
}
