//! Value iteration: rounds until one makes no scene cheaper.
ghost use Rattle.std.specs.Prelude.{◌≡◌, false, Some, None, slice_index_or};
ghost use Rattle.model.specs.Charts.{same_chart};
ghost use Rattle.model.specs.Shelves.{on, bare};
ghost use Rattle.rule.specs.Rule.{chart_after, rule};
ghost use Rattle.rig.specs.Rigs.{contents};
ghost use Rattle.steps.specs.Ends.{Made};
ghost use Rattle.rounds.specs.Rounds.{rounds_after, Counted, Followed};

use crate::rounds::*;
use rig::frame::Rig;
use shelf::calls::Shelf;
use steps::fault::*;
use steps::round::Round;

/// Whether the last round made no scene cheaper: pegs 0 and 1 carry equal charts.
fn settled<S: Shelf>(shelf: &S) -> bool
    requires first { bare (S.meaning shelf.now).pegs 0 ≡ false }
    requires second { bare (S.meaning shelf.now).pegs 1 ≡ false }
    ensures value { result ≡ same_chart (on (S.meaning shelf.now).pegs 0) (on (S.meaning shelf.now).pegs 1) }
{
    shelf.same(0, 1).unwrap()
}

/// Takes rounds until one makes no scene cheaper, and answers how many did.
// That the rig and the shelf are of one shape is asked here, below, and where a plan is searched: the calls change the
// shelf, so a type of both would owe this anew after each of them.
fn repeat_rounds<S: Shelf>(rig: &Rig, round: &mut Round<S>) -> Result<u64, PlanFault>
    requires shape { (S.meaning round.old.shelf.now).shape ≡ (contents rig.now).settings }
    requires first { slice_index_or (S.meaning round.old.shelf.now).pegs 0 None ≡ Some (chart_after (contents rig.now) 0) }
    ensures followed { Followed S.meaning (contents rig.now) round.old (rounds_after (contents rig.now) 0) result round.new }
{
    let mut changed = 0;
    // A loop: a `for` over `0..` ends by a statement, so an `unreachable!()` with a proof of its own would stand below it.
    loop {
        round.number = changed + 1;
        one_round(round, rig.slots())?;
        if settled(round.shelf) {
            return Ok(changed);
        }
        round.cheaper(0, 1, 1)?;
        changed += 1;
    }
}

/// Follows the planning rule up to the round that makes no scene cheaper, and answers how many made some cheaper.
pub fn iterate<S: Shelf>(rig: &Rig, shelf: &mut S) -> Result<u64, PlanFault>
    requires shape { (S.meaning shelf.old).shape ≡ (contents rig.now).settings }
    ensures made { Made (S.meaning shelf.old) (rule (contents rig.now)) result (S.meaning shelf.new) }
    ensures counted { Counted (contents rig.now) result }
{
    let mut round = Round { shelf, number: 0 };
    before_rounds(&mut round, rig.masks())?;
    repeat_rounds(rig, &mut round)
}
