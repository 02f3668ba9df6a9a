//! A plan performed on the rig move by move, followed on the graph of the search.
use crate::graph::{Graph, Step};
use crate::search::Expected;
use anyhow::{Context, ensure};
use planner::answer::Plan;
use rig::frame::Rig;

/// The step by the move of a number.
fn step_by(graph: &Graph, scene: usize, number: u8) -> Option<Step> {
    let mut steps = graph.steps_from(scene).iter();
    steps.find(|step| step.number == number).copied()
}

/// Performs each move, whose time must be as the search judges it, and ends at the scene and with the sum of the times.
fn followed(rig: &mut Rig, graph: &Graph, moves: &[u8]) -> anyhow::Result<(usize, u64)> {
    let mut scene = graph.present;
    let mut sum = 0u64;
    for number in moves {
        let step = step_by(graph, scene, *number).context(
            "the search: a move that may not be made",
        )?;
        let time = u64::from(rig.perform(usize::from(*number))?);
        ensure!(
            time == step.time,
            "move {number} took {time}, by the search {}",
            step.time
        );
        sum = sum.saturating_add(time);
        scene = step.end;
    }
    Ok((scene, sum))
}

/// Performs the moves of the plan, which must arrive at a wanted scene in its time.
pub fn performed(rig: &mut Rig, graph: &Graph, expected: &Expected) -> anyhow::Result<()> {
    let (scene, sum) = followed(rig, graph, expected.moves.as_slice())?;
    if let Plan::Way { time, .. } = expected.answer {
        ensure!(sum == time, "the moves took {sum}, the plan {time}");
        ensure!(
            rig.is_wanted() && graph.is_wanted(scene),
            "the moves do not arrive"
        );
    }
    Ok(())
}
