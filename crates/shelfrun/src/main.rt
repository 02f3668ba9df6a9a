// Opens a flat shelf and a diagram shelf, hangs, joins, puts and reads charts on each, and prints what it read.
#![tactic(auto)]

use diagram::diagram_shelf::DiagramShelf;
use either::Either;
use flat::store::FlatShelf;
use memory::handed_back;
use print::{chart, compared, read, said};
use shelf::calls::Shelf;
use std::io;

mod memory;
mod print;

const NEVER: Option<u64> = None;

/// Two dials, their sum, the cheaper of them, and the sum once device 1 is at setting 2.
fn hang<S: Shelf>(rt: &HostRuntime, shelf: &mut S) -> io::Result<()> {
    let lamp = [Some(15), Some(0), NEVER, NEVER, NEVER, NEVER, NEVER, NEVER];
    let sky = [NEVER, Some(20), Some(0), NEVER, NEVER, NEVER, NEVER, NEVER];
    said(rt, "dial device 0 onto peg 0", shelf.dial(0, 0, &lamp))?;
    said(rt, "dial device 1 onto peg 1", shelf.dial(1, 1, &sky))?;
    said(rt, "sum of 0 and 1 onto peg 2", shelf.sum(2, 0, 1))?;
    chart(rt, shelf, 2)?;
    said(rt, "cheaper of 0 and 1 onto peg 3", shelf.cheaper(3, 0, 1))?;
    chart(rt, shelf, 3)?;
    said(
        rt,
        "put device 1 at 2 from 2 onto peg 2",
        shelf.put(2, 2, 1, 2),
    )?;
    chart(rt, shelf, 2)?;
    compared(rt, "pegs 2 and 0", shelf.same(2, 0))?;
    compared(rt, "pegs 2 and 3", shelf.same(2, 3))
}

/// Calls that are refused, each by another number.
fn refused<S: Shelf>(rt: &HostRuntime, shelf: &mut S) -> io::Result<()> {
    let late = [Some(1_000_000_000_000_000_001); 8];
    said(rt, "dial device 2 onto peg 0", shelf.dial(0, 2, &late))?;
    said(
        rt,
        "put device 1 at 3 from 0 onto peg 0",
        shelf.put(0, 0, 1, 3),
    )?;
    said(rt, "sum of 0 and 8 onto peg 4", shelf.sum(4, 0, 8))?;
    said(rt, "cheaper of 0 and 5 onto peg 4", shelf.cheaper(4, 0, 5))?;
    said(rt, "dial a late time onto peg 0", shelf.dial(0, 0, &late))?;
    said(rt, "wipe peg 3", shelf.wipe(3))?;
    compared(rt, "pegs 2 and 3", shelf.same(2, 3))?;
    read(rt, "a scene of one setting", shelf.at(0, &[1]))?;
    chart(rt, shelf, 0)
}

/// All of these calls on a shelf.
fn run<S: Shelf>(rt: &HostRuntime, shelf: &mut S) -> io::Result<()> {
    hang(rt, shelf)?;
    refused(rt, shelf)
}

/// Openings of a flat shelf, two of them refused, and the calls on it.
fn on_flat(rt: &HostRuntime) -> io::Result<()> {
    let cells = vec![in rt.alloc(); NEVER; 48]?;
    let cells = handed_back(rt, FlatShelf::open(&[2, 9], cells))?;
    let cells = handed_back(rt, FlatShelf::open(&[2, 2, 2], cells))?;
    // A `match`: one end goes on with the shelf, the other prints why there is none and ends well.
    match FlatShelf::open(&[2, 3], cells) {
        Ok(flat) => {
            let mut shelf: Either<FlatShelf, DiagramShelf> = Either::Left(flat);
            run(rt, &mut shelf)
        }
        Err(unopened) => println!(rt; "not opened: {}", unopened.fault.number()),
    }
}

/// The same calls on a diagram shelf with so many node slots.
fn on_diagram(rt: &HostRuntime, slots: usize) -> io::Result<()> {
    match DiagramShelf::open(rt.alloc(), &[2, 3], slots) {
        Ok(diagram) => {
            let mut shelf: Either<FlatShelf, DiagramShelf> = Either::Right(diagram);
            run(rt, &mut shelf)
        }
        Err(fault) => println!(rt; "not opened: {fault}"),
    }
}

/// A dial of device 0 of three with 0 and 5, which has three parts, on a diagram shelf with so many node slots.
fn three_parts(rt: &HostRuntime, slots: usize) -> io::Result<()> {
    let lamp = [Some(0), Some(5), NEVER, NEVER, NEVER, NEVER, NEVER, NEVER];
    match DiagramShelf::open(rt.alloc(), &[2, 3, 2], slots) {
        Ok(mut shelf) => said(rt, "dial of three parts", shelf.dial(0, 0, &lamp)),
        Err(fault) => println!(rt; "not opened: {fault}"),
    }
}

fn main(rt: HostRuntime) -> io::Result<()> {
    on_flat(&rt)?;
    on_diagram(&rt, 0)?;
    on_diagram(&rt, 16)?;
    three_parts(&rt, 3)?;
    three_parts(&rt, 2)
}
