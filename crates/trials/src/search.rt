//! What the search says that a plan must answer.
use crate::dijkstra::reached;
use crate::graph::Graph;
use crate::runs::{Quickest, quickest_runs};
use crate::sweeps::swept_out;
use anyhow::ensure;
use planner::answer::Plan;
use std::alloc::Global;

/// Where there are more quickest runs, they are not gone through one by one.
const MOST_RUNS: u64 = 500;

/// The answer that a plan must give, with the moves of the run on a way.
#[derive(Drop)]
pub struct Expected {
    pub answer: Plan,
    pub moves: Vec<u8>,
    /// How many quickest runs there are.
    pub runs: u64,
    /// Whether they were gone through one by one.
    pub is_exhausted: bool,
}

impl Expected {
    /// How many rounds made some scene cheaper.
    pub fn rounds(&self) -> u64 {
        match self.answer {
            Plan::Way { rounds, .. } | Plan::NoWay { rounds } => rounds,
        }
    }
}

/// The run whose number is smaller at the first place where it differs from any other.
fn first_of(runs: &[Vec<u8>]) -> Option<&Vec<u8>> {
    let mut first = runs.first()?;
    for run in runs {
        if run.as_slice() < first.as_slice() {
            first = run;
        }
    }
    Some(first)
}

/// Goes through the quickest runs one by one, if they are few, and answers whether it did.
fn exhausted(alloc: Global, runs: &Quickest<'_>, moves: &[u8]) -> anyhow::Result<bool> {
    if runs.count() > MOST_RUNS {
        return Ok(false);
    }
    let every = runs.every(alloc)?;
    let found = every.len();
    let count = runs.count();
    ensure!(
        found as u64 == count,
        "the search: {count} quickest runs, {found} of them found"
    );
    let is_first = first_of(every.as_slice()).is_some_and(|run| run.as_slice() == moves);
    ensure!(is_first, "the search: another quickest run comes first");
    Ok(true)
}

/// What a plan must answer where there is a way.
fn way(alloc: Global, runs: &Quickest<'_>, rounds: u64) -> anyhow::Result<Expected> {
    let moves = runs.first(alloc)?;
    let is_exhausted = exhausted(alloc, runs, moves.as_slice())?;
    let answer = Plan::Way {
        moves: moves.len(),
        time: runs.time,
        rounds,
    };
    Ok(Expected {
        answer,
        moves,
        runs: runs.count(),
        is_exhausted,
    })
}

/// Searches forward from the present scene, and by sweeps from the wanted scenes, which must agree on the time.
pub fn searched(alloc: Global, graph: &Graph) -> anyhow::Result<Expected> {
    let reach = reached(alloc, graph)?;
    let settled = swept_out(alloc, graph)?;
    let runs = quickest_runs(alloc, graph, &reach)?;
    let time = runs.as_ref().map(|runs| runs.time);
    let swept = settled.times.get(graph.present).copied().flatten();
    ensure!(
        swept == time,
        "the search: sweeps and the forward search differ in the time"
    );
    match runs {
        Some(runs) => way(alloc, &runs, settled.rounds),
        None => Ok(Expected {
            answer: Plan::NoWay {
                rounds: settled.rounds,
            },
            moves: Vec::new(alloc),
            runs: 0,
            is_exhausted: true,
        }),
    }
}
