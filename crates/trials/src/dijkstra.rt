//! The least times from the present scene forward, by Dijkstra's method with a binary heap.
use crate::graph::Graph;
use std::alloc::{AllocError, Global};
use std::cmp::Reverse;
use std::collections::BinaryHeap;

/// A scene that a run reaches in a time; the least time comes first.
type Visit = (Reverse<u64>, usize);

/// What the runs from the present scene reach.
#[derive(Drop)]
pub struct Reach {
    /// The least time from the present scene to each.
    pub times: Vec<Option<u64>>,
    /// The scenes that are reached, by rising time.
    pub order: Vec<usize>,
}

impl Reach {
    /// The least time from the present scene to another, if a run reaches it.
    pub fn time_to(&self, scene: usize) -> Option<u64> {
        self.times.get(scene).copied().flatten()
    }

    /// Settles a scene at a time, unless it is settled, and answers whether it did.
    fn settle(&mut self, scene: usize, time: u64) -> Result<bool, AllocError> {
        let Some(place) = self.times.get_mut(scene) else {
            return Ok(false);
        };
        if place.is_some() {
            return Ok(false);
        }
        *place = Some(time);
        self.order.push(scene)?;
        Ok(true)
    }
}

/// Puts the scenes that are one step away on the heap.
fn visit_next(
    graph: &Graph,
    heap: &mut BinaryHeap<Visit>,
    scene: usize,
    time: u64,
) -> Result<(), AllocError> {
    for step in graph.steps_from(scene) {
        heap.push((Reverse(time.saturating_add(step.time)), step.end))?;
    }
    Ok(())
}

/// Goes forward from the present scene.
pub fn reached(alloc: Global, graph: &Graph) -> Result<Reach, AllocError> {
    let mut reach = Reach {
        times: vec![in alloc; None; graph.size()]?,
        order: Vec::new(alloc),
    };
    let mut heap = BinaryHeap::new(alloc);
    heap.push((Reverse(0), graph.present))?;
    // The heap runs empty long before: each scene puts its steps on it once.
    for _ in 0..u64::MAX {
        let Some((Reverse(time), scene)) = heap.pop() else {
            break;
        };
        if reach.settle(scene, time)? {
            visit_next(graph, &mut heap, scene, time)?;
        }
    }
    Ok(reach)
}
