//! The rig of a plain rig.
use crate::graph::Graph;
use crate::plain::{PlainMove, PlainRig, PlainSurcharge};
use anyhow::ensure;
use drafts::draft::{Charge, Draft};
use rig::frame::Rig;
use std::alloc::{AllocError, Global};

/// The surcharges as they are handed in.
fn charges(alloc: Global, surcharges: &[PlainSurcharge]) -> Result<Vec<Charge<'_>>, AllocError> {
    let mut charges = Vec::new(alloc);
    for surcharge in surcharges {
        charges.push(Charge {
            tests: surcharge.tests.as_slice(),
            extra: surcharge.extra,
        })?;
    }
    Ok(charges)
}

/// Adds a move in the slot of its number.
fn add_move(alloc: Global, rig: &mut Rig, entry: &PlainMove) -> anyhow::Result<()> {
    let surcharges = charges(alloc, entry.surcharges.as_slice())?;
    let draft = Draft {
        conditions: entry.conditions.as_slice(),
        effects: entry.effects.as_slice(),
        base: entry.base,
        surcharges: surcharges.as_slice(),
    };
    rig.add(usize::from(entry.number), &draft)?;
    Ok(())
}

/// How many scenes are wanted, counted one by one.
fn wanted_count(graph: &Graph) -> u64 {
    let mut count = 0u64;
    for wanted in &graph.wanted {
        count = count.saturating_add(u64::from(*wanted));
    }
    count
}

/// Opens the rig, adds its moves, and wants its scenes, of which there must be as many as the search counts.
pub fn made(alloc: Global, plain: &PlainRig, graph: &Graph) -> anyhow::Result<Rig> {
    let slots = vec![in alloc; None; usize::from(plain.slots)]?;
    let mut rig = Rig::open(
        plain.settings.as_slice(),
        plain.names.as_slice(),
        plain.scene.as_slice(),
        slots,
    )
    .map_err(|refused| refused.fault)?;
    for entry in &plain.moves {
        add_move(alloc, &mut rig, entry)?;
    }
    let wanted = rig.want(plain.masks.as_slice())?;
    let counted = wanted_count(graph);
    ensure!(
        wanted == counted,
        "{wanted} scenes are wanted, {counted} by counting"
    );
    Ok(rig)
}
