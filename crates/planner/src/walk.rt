//! The walk along a plan: from each scene the move of the smallest number that loses no time.
ghost use Rattle.std.specs.Prelude.{◌≡◌, ◌<◌, false, map, Some};
ghost use Rattle.lists.specs.Shorts.{listed};
ghost use Rattle.model.specs.Charts.{at};
ghost use Rattle.model.specs.Scenes.{SceneOf};
ghost use Rattle.model.specs.Shelves.{on, bare};
ghost use Rattle.theory.specs.Tables.{action_of};
ghost use Rattle.theory.specs.Wellformed.{LawfulMove};
ghost use Rattle.rig.specs.Rigs.{contents};
ghost use Rattle.moves.specs.Views.{move_of};
ghost use Rattle.planner.specs.Walking.{first_peg, Ready, Stands, Led, Strode, Strides, Taken};

use crate::point::*;
use lists::limits::MOST_DEVICES;
use lists::places::set_in;
use lists::short::Short;
use moves::entry::Move;
use moves::scene::{apply, every_holds};
use rig::frame::Rig;
use shelf::calls::Shelf;

/// The time that peg 0 gives a scene, or none.
pub(crate) fn time_from<S: Shelf>(shelf: &S, scene: &[u8]) -> Option<u64>
    requires hung { bare (S.meaning shelf.now).pegs 0 ≡ false }
    requires within { SceneOf (S.meaning shelf.now).shape scene.now }
    ensures value { result ≡ at (S.meaning shelf.now).shape (on (S.meaning shelf.now).pegs 0) scene.now }
{
    shelf.at(0, scene).unwrap()
}

/// A rig, and a shelf whose peg 0 has the least times of all runs to a wanted scene.
#[derive(Drop)]
pub(crate) struct Walk<'a, S: Shelf> {
    pub(crate) rig: &'a Rig,
    pub(crate) shelf: &'a S,
    ghost ready: { ∥ Ready (contents rig.now) (S.meaning shelf.now) ∥₁ },
}

/// The present scene, with the time from it.
fn beginning(rig: &Rig, time: u64) -> Point
    ensures scene { listed result.scene ≡ (contents rig.now).scene }
    ensures left { result.left ≡ time }
{
    Point {
        scene: Short::of(rig.scene(), 0).unwrap(),
        left: time,
    }
}

// `Stands` is asked thrice: it relates a point to this walk, and a type that holds both would be made for each point.
impl<'a, S: Shelf> Walk<'a, S> {
    /// Where a move leads, if it may be made and loses no time.
    fn led_by_move(&self, point: &Point, entry: &Move) -> Option<Point>
        requires stands { Stands (contents self.now.rig.now) (S.meaning self.now.shelf.now) point.now }
        requires lawful { LawfulMove (contents self.now.rig.now).settings (move_of entry.now) }
        ensures led { Led (contents self.now.rig.now) (S.meaning self.now.shelf.now) point.now (Some (action_of (move_of entry.now))) result }
    {
        let scene = point.scene;
        // A guard: `then_some(())?` would hide the test behind a value that says nothing.
        if !every_holds(entry.conditions(), scene.as_slice()) {
            return None;
        }
        let time = u64::from(entry.time(scene.as_slice()));
        let left = point.left.checked_sub(time)?;
        let mut next = scene;
        apply(entry.effects(), &mut next);
        let after = time_from(self.shelf, next.as_slice())?;
        (after == left).then_some(Point { scene: next, left })
    }

    /// The stride by the move of a number, if there is one that may be made and loses no time.
    fn stride_by(&self, point: &Point, number: usize) -> Option<Stride>
        requires stands { Stands (contents self.now.rig.now) (S.meaning self.now.shelf.now) point.now }
        ensures strode { Strode (contents self.now.rig.now) (S.meaning self.now.shelf.now) point.now number result }
    {
        let entry = self.rig.slots().get(number)?.as_ref()?;
        let end = self.led_by_move(point, entry)?;
        Some(Stride {
            // A cast: a number of a slot is below 255.
            number: number as u8,
            end,
        })
    }

    /// The move of the smallest number that loses no time, and where it leads.
    fn next_stride(&self, point: &Point) -> Stride
        requires stands { Stands (contents self.now.rig.now) (S.meaning self.now.shelf.now) point.now }
        requires far { 0 < point.now.left }
        ensures strides { Strides (contents self.now.rig.now) (S.meaning self.now.shelf.now) point.now result }
    {
        (0..self.rig.slots().len())
            .find_map(|number| self.stride_by(point, number))
            .unwrap()
    }

    /// Takes the walk, writes the numbers of its moves as far as the sheet goes, and answers how many they are.
    pub(crate) fn walk(&self, time: u64, sheet: &mut [u8]) -> usize
        requires timed { first_peg (contents self.now.rig.now) (S.meaning self.now.shelf.now) (contents self.now.rig.now).scene ≡ Some time }
        ensures taken { Taken (contents self.now.rig.now) (S.meaning self.now.shelf.now) sheet.old result sheet.new }
    {
        let mut point = beginning(self.rig, time);
        let mut moves = 0;
        // By hand: `fold` asks that its iterator ends, and `successors` has no end that a contract could name.
        while point.left > 0 {
            let stride = self.next_stride(&point);
            set_in(sheet, moves, stride.number);
            moves += 1;
            point = stride.end;
        }
        moves
    }
}
