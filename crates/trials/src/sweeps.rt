//! Rounds by plain sweeps: each goes over all scenes and all steps, from the times before it.
use crate::graph::{Graph, Step};
use std::alloc::{AllocError, Global};

/// The times to a wanted scene, once a sweep changes nothing, and how many sweeps made some scene cheaper.
#[derive(Drop)]
pub struct Settled {
    pub times: Vec<Option<u64>>,
    pub rounds: u64,
}

/// The lesser of two times, of which either may be never.
fn lesser(a: Option<u64>, b: Option<u64>) -> Option<u64> {
    match (a, b) {
        (Some(a), Some(b)) => Some(a.min(b)),
        (Some(a), None) => Some(a),
        (None, b) => b,
    }
}

/// The time by way of a step, from the times before the sweep.
fn by_way_of(step: &Step, before: &[Option<u64>]) -> Option<u64> {
    let rest = before.get(step.end).copied().flatten()?;
    rest.checked_add(step.time)
}

/// The least of a time and the times by way of each step.
fn improved(time: Option<u64>, steps: &[Step], before: &[Option<u64>]) -> Option<u64> {
    let mut least = time;
    for step in steps {
        least = lesser(least, by_way_of(step, before));
    }
    least
}

/// The times after one sweep.
fn swept(
    alloc: Global,
    graph: &Graph,
    before: &[Option<u64>],
) -> Result<Vec<Option<u64>>, AllocError> {
    let mut times = Vec::new(alloc);
    for (scene, time) in before.iter().enumerate() {
        times.push(improved(*time, graph.steps_from(scene), before))?;
    }
    Ok(times)
}

/// The times before the first sweep: 0 at a wanted scene, never elsewhere.
fn at_first(alloc: Global, graph: &Graph) -> Result<Vec<Option<u64>>, AllocError> {
    let mut times = Vec::new(alloc);
    for wanted in &graph.wanted {
        times.push(wanted.then_some(0))?;
    }
    Ok(times)
}

/// Sweeps until nothing changes.
pub fn swept_out(alloc: Global, graph: &Graph) -> Result<Settled, AllocError> {
    let mut times = at_first(alloc, graph)?;
    let mut rounds = 0;
    // A sweep that changes nothing comes long before: times only fall.
    for sweep in 0..u64::MAX {
        let after = swept(alloc, graph, times.as_slice())?;
        if after.as_slice() == times.as_slice() {
            rounds = sweep;
            break;
        }
        times = after;
    }
    Ok(Settled { times, rounds })
}
