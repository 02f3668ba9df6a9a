//! Random rigs, each planned on a flat shelf and on diagram shelves, and compared with a search that shares no code with
//! the planner. What is tried is told in docs/TRIALS.md.
#![tactic(auto)]

mod board;
mod damage;
mod devices;
mod dijkstra;
mod files;
mod graph;
mod guest;
mod invent;
mod ladder;
mod make;
mod pairs;
mod performs;
mod pieces;
mod plain;
mod plain_rule;
mod plans;
mod random_times;
mod reads;
mod rooms;
mod runs;
mod scenes;
mod search;
mod sequence;
mod sweeps;
mod tally;

use anyhow::{Context, ensure};
use files::tried;
use graph::{Graph, explored};
use guest::Guest;
use invent::invent;
use make::made;
use performs::performed;
use planner::answer::Plan;
use plans::Case;
use reads::read_tried;
use rooms::rooms_tried;
use search::{Expected, searched};
use sequence::Sequence;
use std::alloc::Global;
use tally::{Tally, add_to, raise_to};

/// How many rigs are tried.
const TRIALS: u64 = 1000;

/// Fills are followed for rigs of no more scenes than these, whose rounds are no more either.
const FEW_SCENES: usize = 32;

const FEW_ROUNDS: u64 = 6;

/// Counts a rig and what the search says of it.
fn count(tally: &mut Tally, graph: &Graph, expected: &Expected) {
    add_to(&mut tally.rigs, 1);
    raise_to(&mut tally.most_scenes, graph.size() as u64);
    raise_to(&mut tally.most_runs, expected.runs);
    add_to(&mut tally.ties, u64::from(expected.runs > 1));
    add_to(&mut tally.exhausted, u64::from(expected.is_exhausted));
    raise_to(&mut tally.most_rounds, expected.rounds());
    match expected.answer {
        Plan::Way { moves, .. } => {
            add_to(&mut tally.ways, 1);
            add_to(&mut tally.moves, moves as u64);
            raise_to(&mut tally.most_moves, moves as u64);
        }
        Plan::NoWay { .. } => add_to(&mut tally.no_ways, 1),
    }
}

/// The trial of a number: its sequence begins at that state.
fn trial(alloc: Global, number: u64, tally: &mut Tally) -> anyhow::Result<()> {
    let mut draws = Sequence::from_state(number);
    let plain = invent(alloc, &mut draws)?;
    let graph = explored(alloc, &plain)?;
    let expected = searched(alloc, &graph)?;
    let mut rig = made(alloc, &plain, &graph)?;
    count(tally, &graph, &expected);
    let case = Case {
        alloc,
        rig: &rig,
        expected: &expected,
        guest: Guest::invented(&mut draws, plain.settings.len()),
    };
    case.on_flat(graph.size())?;
    case.on_diagrams(tally)?;
    if graph.size() <= FEW_SCENES && expected.rounds() <= FEW_ROUNDS {
        rooms_tried(alloc, &rig, &plain, &expected, tally)?;
    }
    tried(alloc, &rig, &plain)?;
    add_to(&mut tally.written, 1);
    read_tried(alloc, &mut draws, &rig, &plain, tally)?;
    performed(&mut rig, &graph, &expected)
}

/// The sequence begins as its authors' own does.
fn is_known() -> bool {
    let mut draws = Sequence::from_state(1_234_567);
    draws.draw() == 6_457_827_717_110_365_317 && draws.draw() == 3_203_168_211_198_807_973
}

/// Makes every trial, up to the first in which something disagrees, and prints what was seen.
fn main(rt: HostRuntime) -> anyhow::Result<()> {
    ensure!(
        is_known(),
        "the sequence is not the one that is written down"
    );
    let mut tally = Tally::new();
    for number in 0..TRIALS {
        trial(rt.alloc(), number, &mut tally).context(format_args!("trial {number}"))?;
    }
    tally.print(&rt)?;
    Ok(())
}
