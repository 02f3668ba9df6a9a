//! Plans in exactly as many node slots as the rule needs, and in fewer.
use crate::board::Fill;
use crate::plain::PlainRig;
use crate::plain_rule::fills;
use crate::search::Expected;
use crate::tally::{Tally, add_to, raise_to};
use anyhow::{Context, bail, ensure};
use diagram::diagram_shelf::DiagramShelf;
use planner::planning::plan;
use rig::frame::Rig;
use shelf::fault::ShelfFault;
use std::alloc::Global;
use steps::fault::PlanFault;

/// The greatest fill.
fn most_parts(fills: &[Fill]) -> usize {
    fills.iter().map(|fill| fill.parts).max().unwrap_or(0)
}

/// Plans with so many node slots: as the search says, or sent back at the first hanging whose fill is greater.
fn in_slots(
    alloc: Global,
    rig: &Rig,
    expected: &Expected,
    fills: &[Fill],
    slots: usize,
) -> anyhow::Result<()> {
    let mut shelf = DiagramShelf::open(alloc, rig.settings(), slots)?;
    let mut sheet = vec![in alloc; 0; expected.moves.len()]?;
    let answer = plan(rig, &mut shelf, sheet.as_mut_slice());
    match (answer, fills.iter().find(|fill| fill.parts > slots)) {
        (Ok(answer), None) => ensure!(answer == expected.answer, "{answer:?}"),
        (
            Err(
                PlanFault::NoRoom {
                    fault: ShelfFault::NoRoom,
                    round,
                    number,
                    ..
                },
            ),
            Some(fill),
        ) => {
            let is_first = round == fill.round && number == fill.number;
            ensure!(
                is_first,
                "no room in round {round} at move {number:?}, not as the fills say"
            );
        }
        (answer, _) => bail!("{answer:?}, not as the fills say"),
    }
    Ok(())
}

/// Plans with the greatest fill of the rule as the capacity, with one slot less, and with half of them.
pub fn rooms_tried(
    alloc: Global,
    rig: &Rig,
    plain: &PlainRig,
    expected: &Expected,
    tally: &mut Tally,
) -> anyhow::Result<()> {
    let fills = fills(alloc, plain)?;
    let most = most_parts(fills.as_slice());
    for slots in [most, most.saturating_sub(1), most / 2] {
        in_slots(alloc, rig, expected, fills.as_slice(), slots.max(1)).context(format_args!(
            "{slots} node slots, where {most} are needed"
        ))?;
    }
    add_to(&mut tally.filled, 1);
    add_to(&mut tally.hangings, fills.len() as u64);
    raise_to(&mut tally.most_parts, most as u64);
    Ok(())
}
