//! The calls of the evening, in the order in which they are made.
ghost use Rattle.std.specs.Prelude.{◌≡◌, [], ◌∷◌, map, vec_items, IfOk};
ghost use Rattle.drafts.specs.Drafts.{draft_of, charges_of};
ghost use Rattle.showrun.specs.Calls as calls;
ghost use Rattle.showrun.specs.Evening as evening;

use crate::evening::{MOVES, ONE_MORE, SETTINGS};
use anyhow::anyhow;
use diagram::diagram_shelf::DiagramShelf;
use drafts::draft::{Charge, Draft};
use show::cue::Cue;
use std::alloc::Global;

/// A call of the evening, with a diagram shelf for a plan.
pub(crate) type Call = Cue<'static, DiagramShelf>;

/// How many node slots the shelf of a plan has.
const NODE_SLOTS: usize = 512;

fn add(number: usize, draft: &'static Draft<'static>) -> Call
    ensures { calls.call_of result ≡ calls.add number (draft_of draft.now) }
{
    Cue::Add {
        number,
        draft,
        reply: None,
    }
}

fn retime(number: usize, base: u16, charges: &'static [Charge<'static>]) -> Call
    ensures { calls.call_of result ≡ calls.retime number base (charges_of charges.now) }
{
    Cue::Retime {
        number,
        base,
        charges,
        reply: None,
    }
}

fn withdraw(number: usize) -> Call
    ensures { calls.call_of result ≡ calls.withdraw number }
{
    Cue::Withdraw {
        number,
        reply: None,
    }
}

fn perform(number: usize) -> Call
    ensures { calls.call_of result ≡ calls.perform number }
{
    Cue::Perform {
        number,
        reply: None,
    }
}

/// A mask for the lamp, and one for the sky.
fn want(heap: Global, lamp: u8, sky: u8) -> anyhow::Result<Call>
    ensures { IfOk result (λ c. calls.call_of c ≡ calls.want (lamp ∷ sky ∷ [])) }
{
    Ok(Cue::Want {
        masks: vec![in heap; lamp, sky]?,
        reply: None,
    })
}

/// A plan on a new diagram shelf, with a sheet of so many bytes.
fn plan(heap: Global, bytes: usize) -> anyhow::Result<Call>
    ensures { IfOk result (λ c. calls.call_of c ≡ evening.planned bytes) }
{
    let sheet = vec![in heap; 0u8; bytes]?;
    let shelf = DiagramShelf::open(heap, &SETTINGS, NODE_SLOTS).map_err(|fault| {
        anyhow!("the shelf of the evening does not open: {fault}")
    })?;
    Ok(Cue::Plan {
        shelf,
        sheet,
        reply: None,
    })
}

/// The calls of the evening: its moves are added, and its cases come one after another.
pub(crate) fn cues(heap: Global) -> anyhow::Result<Vec<Call>>
    ensures { IfOk result (λ cues. map calls.call_of (vec_items cues) ≡ evening.calls) }
{
    let mut cues = Vec::new(heap);
    cues.push(add(0, &MOVES[0]))?;
    cues.push(add(1, &MOVES[1]))?;
    cues.push(add(2, &MOVES[2]))?;
    cues.push(add(3, &MOVES[3]))?;
    cues.push(want(heap, 0b011, 0b100)?)?;
    cues.push(plan(heap, 16)?)?;
    cues.push(plan(heap, 2)?)?;
    cues.push(plan(heap, 3)?)?;
    cues.push(withdraw(0))?;
    cues.push(plan(heap, 16)?)?;
    cues.push(add(0, &MOVES[0]))?;
    cues.push(perform(0))?;
    cues.push(perform(0))?;
    cues.push(plan(heap, 16)?)?;
    cues.push(retime(0, 65_535, &[]))?;
    cues.push(retime(0, 65_535, &ONE_MORE))?;
    cues.push(withdraw(2))?;
    cues.push(withdraw(3))?;
    cues.push(plan(heap, 16)?)?;
    cues.push(want(heap, 0b011, 0b1000)?)?;
    cues.push(want(heap, 0b011, 0)?)?;
    cues.push(want(heap, 0b011, 0b111)?)?;
    cues.push(plan(heap, 16)?)?;
    Ok(cues)
}
