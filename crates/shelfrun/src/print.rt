use shelf::calls::Shelf;
use shelf::fault::ShelfFault;
use std::{fmt, io};

/// What a call answered, printed as that or as the number of its refusal.
#[derive(Drop)]
struct Answer<T>(Result<T, ShelfFault>);

impl<T: fmt::Display> fmt::Display for Answer<T> {
    fn fmt<W: fmt::Write>(&self, f: &mut fmt::Formatter<W>) -> fmt::Result {
        match &self.0 {
            Ok(answer) => write!(f, "{answer}"),
            // Not the fault's own words: a line of the run names the refusal by its number.
            Err(fault) => write!(f, "refused {}", fault.number()),
        }
    }
}

/// An entry of a chart: a time, or never.
#[derive(Drop)]
struct Entry(Option<u64>);

impl fmt::Display for Entry {
    fn fmt<W: fmt::Write>(&self, f: &mut fmt::Formatter<W>) -> fmt::Result {
        match self.0 {
            Some(time) => write!(f, "{time}"),
            None => write!(f, "never"),
        }
    }
}

/// What a call that hangs or wipes answered.
pub fn said(rt: &HostRuntime, call: &str, answer: Result<(), ShelfFault>) -> io::Result<()> {
    println!(rt; "{call}: {}", Answer(answer.map(|()| "done")))
}

/// What a comparison answered.
pub fn compared(rt: &HostRuntime, pegs: &str, answer: Result<bool, ShelfFault>) -> io::Result<()> {
    let answer = answer.map(|same| if same { "same" } else { "not the same" });
    println!(rt; "{pegs}: {}", Answer(answer))
}

/// What a read of a scene answered.
pub fn read(
    rt: &HostRuntime,
    scene: &str,
    answer: Result<Option<u64>, ShelfFault>,
) -> io::Result<()> {
    println!(rt; "{scene}: {}", Answer(answer.map(Entry)))
}

/// A peg's chart over settings 2 and 3, scene by scene.
pub fn chart<S: Shelf>(rt: &HostRuntime, shelf: &S, peg: u8) -> io::Result<()> {
    for lamp in 0..2 {
        for sky in 0..3 {
            print!(rt; "  {lamp} {sky}")?;
            read(rt, "", shelf.at(peg, &[lamp, sky]))?;
        }
    }
    Ok(())
}
