//! Calls one after another on a rig, each with its reply.
ghost use Rattle.std.specs.Prelude.{◌≡◌};
ghost use Rattle.rig.specs.Rigs.{contents};
ghost use Rattle.show.specs.Shows.{Answered, altered, Played, Shown};

use crate::cue::Cue;
use lists::names::Name;
use moves::entry::Move;
use planner::planning::plan;
use rig::frame::Rig;
use rig::unopened::Unopened;
use shelf::calls::Shelf;

/// Makes one call, and writes its reply.
pub fn call<S: Shelf>(rig: &mut Rig, cue: &mut Cue<'_, S>)
    ensures answer { Answered S.meaning (contents rig.old) cue.old cue.new }
    ensures left { contents rig.new ≡ altered (contents rig.old) cue.old }
{
    // By a match: the cues are data that a user hands in, and each case is one call.
    match cue {
        Cue::Add {
            number,
            draft,
            reply,
        } => *reply = Some(rig.add(*number, draft)),
        Cue::Retime {
            number,
            base,
            charges,
            reply,
        } => *reply = Some(rig.retime(*number, *base, charges)),
        Cue::Withdraw { number, reply } => *reply = Some(rig.withdraw(*number)),
        Cue::Perform { number, reply } => *reply = Some(rig.perform(*number)),
        Cue::Want { masks, reply } => *reply = Some(rig.want(masks.as_slice())),
        Cue::Plan {
            shelf,
            sheet,
            reply,
        } => *reply = Some(plan(rig, shelf, sheet.as_mut_slice())),
    }
}

/// Makes each call in turn, and writes its reply.
pub fn play<S: Shelf>(rig: &mut Rig, cues: &mut [Cue<'_, S>])
    ensures played { Played S.meaning (contents rig.old) cues.old cues.new (contents rig.new) }
{
    for cue in cues.iter_mut() {
        call(rig, cue);
    }
}

/// Opens a rig over a table of slots and makes each call in turn: a show from its beginning. A refused opening makes no
/// call and hands the table back.
// Settings, names and scene stay apart, as the call `open` of a rig takes them.
pub fn show<S: Shelf>(
    settings: &[u8],
    names: &[Name],
    scene: &[u8],
    slots: Vec<Option<Move>>,
    cues: &mut [Cue<'_, S>],
) -> Result<Rig, Unopened>
    ensures shown { Shown S.meaning settings.now names.now scene.now slots cues.old result cues.new }
{
    let mut rig = Rig::open(settings, names, scene, slots)?;
    play(&mut rig, cues);
    Ok(rig)
}
