//! All quickest runs from the present scene to a wanted one: how many they are, the first by its numbers, and each of them.
use crate::dijkstra::Reach;
use crate::graph::{Graph, Step};
use std::alloc::{AllocError, Global};

/// Every run that arrives in the least time, as the steps that keep to the least times from the present scene.
#[derive(Drop)]
pub struct Quickest<'a> {
    graph: &'a Graph,
    reach: &'a Reach,
    /// The least time from the present scene to a wanted one.
    pub time: u64,
    /// How many quickest runs go on from a scene.
    counts: Vec<u64>,
}

/// A run as far as it has come.
#[derive(Drop)]
struct Partway {
    scene: usize,
    moves: Vec<u8>,
}

/// The least time to a wanted scene.
fn least_time(graph: &Graph, reach: &Reach) -> Option<u64> {
    let mut order = reach.order.iter();
    let nearest = order.find(|scene| graph.is_wanted(**scene))?;
    reach.time_to(*nearest)
}

impl Quickest<'_> {
    /// Whether the run has arrived.
    fn is_end(&self, scene: usize) -> bool {
        self.graph.is_wanted(scene) && self.reach.time_to(scene) == Some(self.time)
    }

    /// How many quickest runs go on from a scene.
    fn count_from(&self, scene: usize) -> u64 {
        self.counts.get(scene).copied().unwrap_or(0)
    }

    /// Whether a step from a scene keeps to the least times from the present scene.
    fn is_tight(&self, scene: usize, step: &Step) -> bool {
        let end = self
            .reach
            .time_to(scene)
            .and_then(|time| time.checked_add(step.time));
        end.is_some() && end == self.reach.time_to(step.end)
    }

    /// Whether a step from a scene lies on a quickest run.
    fn goes_on(&self, scene: usize, step: &Step) -> bool {
        self.is_tight(scene, step) && self.count_from(step.end) > 0
    }

    /// How many quickest runs go on from a scene, once it is known of the scenes that are later.
    fn counted(&self, scene: usize) -> u64 {
        if self.is_end(scene) {
            return 1;
        }
        let mut count = 0u64;
        for step in self.graph.steps_from(scene) {
            if self.is_tight(scene, step) {
                count = count.saturating_add(self.count_from(step.end));
            }
        }
        count
    }

    /// How many quickest runs there are.
    pub fn count(&self) -> u64 {
        self.count_from(self.graph.present)
    }

    /// The quickest run that takes the smallest number at each scene.
    pub fn first(&self, alloc: Global) -> Result<Vec<u8>, AllocError> {
        let mut moves = Vec::new(alloc);
        let mut scene = self.graph.present;
        for _ in 0..self.graph.size() {
            let mut steps = self.graph.steps_from(scene).iter();
            let Some(step) = steps.find(|step| self.goes_on(scene, step)) else {
                break;
            };
            moves.push(step.number)?;
            scene = step.end;
        }
        Ok(moves)
    }

    /// Puts the runs that are one step longer with the others.
    fn lengthen(&self, run: &Partway, runs: &mut Vec<Partway>) -> Result<(), AllocError> {
        for step in self.graph.steps_from(run.scene) {
            if self.goes_on(run.scene, step) {
                let mut moves = run.moves.clone()?;
                moves.push(step.number)?;
                runs.push(Partway {
                    scene: step.end,
                    moves,
                })?;
            }
        }
        Ok(())
    }

    /// Each quickest run, in no order.
    pub fn every(&self, alloc: Global) -> Result<Vec<Vec<u8>>, AllocError> {
        let mut arrived = Vec::new(alloc);
        let mut runs = Vec::new(alloc);
        runs.push(Partway {
            scene: self.graph.present,
            moves: Vec::new(alloc),
        })?;
        // The runs that are under way come to an end: each step takes time, and none passes the least time.
        for _ in 0..u64::MAX {
            let Some(run) = runs.pop() else {
                break;
            };
            if self.is_end(run.scene) {
                arrived.push(run.moves)?;
            } else {
                self.lengthen(&run, &mut runs)?;
            }
        }
        Ok(arrived)
    }
}

/// The quickest runs, if there is a run to a wanted scene.
pub fn quickest_runs<'a>(
    alloc: Global,
    graph: &'a Graph,
    reach: &'a Reach,
) -> Result<Option<Quickest<'a>>, AllocError> {
    let Some(time) = least_time(graph, reach) else {
        return Ok(None);
    };
    let counts = vec![in alloc; 0; graph.size()]?;
    let mut runs = Quickest {
        graph,
        reach,
        time,
        counts,
    };
    for scene in reach.order.iter().rev() {
        let count = runs.counted(*scene);
        if let Some(place) = runs.counts.get_mut(*scene) {
            *place = count;
        }
    }
    Ok(Some(runs))
}
