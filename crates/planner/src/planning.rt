//! Planning: the quickest run of moves to a wanted scene, the first of them by its numbers.
ghost use Rattle.std.specs.Prelude.{◌≡◌, ◌≤◌, Some};
ghost use Rattle.rule.specs.Rule.{count, rule};
ghost use Rattle.rule.specs.Running.{Fits};
ghost use Rattle.rig.specs.Rigs.{contents};
ghost use Rattle.planner.specs.Plans.{cleared, Fills, Found, Planned};
ghost use Rattle.planner.specs.Walking.{first_peg, Ready};

use crate::answer::Plan;
use crate::walk::*;
use rig::frame::Rig;
use rounds::iterate::iterate;
use shelf::calls::Shelf;
use steps::fault::*;

/// How many pegs a plan works on.
const WORK_PEGS: u8 = 5;

/// Makes the pegs bare that a plan works on.
fn clear<S: Shelf>(shelf: &mut S)
    ensures left { S.meaning shelf.new ≡ cleared (S.meaning shelf.old) }
{
    for peg in 0..WORK_PEGS {
        shelf.wipe(peg).unwrap();
    }
}

/// The best way: its moves are counted before the sheet is written.
// Rig, shelf and sheet are handed on apart: the shelf changes until the walk begins, and the sheet is written at its end.
// It asks that the shelf is ready, and no type says it: the best way is data, which a truncated fact cannot give.
fn best_way<S: Shelf>(
    rig: &Rig,
    shelf: &S,
    time: u64,
    rounds: u64,
    sheet: &mut [u8],
) -> Result<Plan, PlanFault>
    requires ready { Ready (contents rig.now) (S.meaning shelf.now) }
    requires timed { first_peg (contents rig.now) (S.meaning shelf.now) (contents rig.now).scene ≡ Some time }
    ensures filled { Fills (contents rig.now) time rounds sheet.old result sheet.new }
{
    let way = Walk { rig, shelf };
    let moves = way.walk(time, &mut []);
    if moves > sheet.len() {
        return Err(PlanFault::SheetShort { needed: moves });
    }
    let _ = way.walk(time, sheet);
    Ok(Plan::Way {
        moves,
        time,
        rounds,
    })
}

/// Plans with a shelf of the rig's shape.
// The shape is asked, and no type says it: the rounds change the shelf, and a type would owe it anew after each call.
fn search<S: Shelf>(rig: &Rig, shelf: &mut S, sheet: &mut [u8]) -> Result<Plan, PlanFault>
    requires shape { (S.meaning shelf.old).shape ≡ (contents rig.now).settings }
    ensures found { Found (contents rig.now) (S.meaning shelf.old) sheet.old result sheet.new }
    ensures left { cleared (S.meaning shelf.new) ≡ cleared (S.meaning shelf.old) }
{
    let rounds = iterate(rig, shelf)?;
    match time_from(shelf, rig.scene()) {
        Some(time) => best_way(rig, shelf, time, rounds, sheet),
        None => Ok(Plan::NoWay { rounds }),
    }
}

/// Finds the quickest run of moves from the present scene to a wanted one, if there is one, by the planning rule on the
/// shelf. Its moves fill the sheet's front. Pegs 0 to 4 are left bare, the others as they were.
pub fn plan<S: Shelf>(rig: &Rig, shelf: &mut S, sheet: &mut [u8]) -> Result<Plan, PlanFault>
    ensures planned { Planned (contents rig.now) (S.meaning shelf.old) sheet.old result (S.meaning shelf.new) sheet.new }
{
    if shelf.shape() != rig.settings() {
        return Err(PlanFault::ShapesDiffer);
    }
    clear(shelf);
    let answer = search(rig, shelf, sheet);
    clear(shelf);
    answer
}
