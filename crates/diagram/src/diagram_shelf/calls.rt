ghost use Rattle.diagram.specs.Means.{means};
ghost use Rattle.diagram.specs.Soundness.{sound_of};

use crate::diagram_shelf::DiagramShelf;
use hang::task::Task;
use lists::limits::MOST_SETTINGS;
use nodes::remembered::Op;
use shelf::calls::Shelf;
use shelf::fault::ShelfFault;
use shelf::numbers::{device_of, judge_scene, peg_of};
use times::{some_late, sum_is_late};
use walk::walk;

/// A diagram shelf has room for so many different parts of charts as it has node slots.
impl Shelf for DiagramShelf {
    ghost meaning = { means };

    ghost sound = { sound_of };

    fn dial(
        &mut self,
        target: u8,
        device: u8,
        entries: &[Option<u64>; MOST_SETTINGS],
    ) -> Result<(), ShelfFault> {
        let known = device_of(self.shape(), device)?;
        let target = peg_of(target)?;
        let count = usize::from(self.shape()[known]);
        if some_late(&entries[..count]) {
            return Err(ShelfFault::TimeHigh);
        }
        let entries = *entries;
        self.hang_task(Task::Dial { device, entries }, target)
    }

    fn cheaper(&mut self, target: u8, left: u8, right: u8) -> Result<(), ShelfFault> {
        let target = peg_of(target)?;
        let _ = self.charts(left, right)?;
        let op = Op::Cheaper;
        self.hang_task(Task::Join { op, left, right }, target)
    }

    fn sum(&mut self, target: u8, left: u8, right: u8) -> Result<(), ShelfFault> {
        let target = peg_of(target)?;
        let (x, y) = self.charts(left, right)?;
        let store = &self.charts.diagrams.store;
        if sum_is_late(store.greatest(x), store.greatest(y)) {
            return Err(ShelfFault::TimeHigh);
        }
        let op = Op::Sum;
        self.hang_task(Task::Join { op, left, right }, target)
    }

    fn put(&mut self, target: u8, source: u8, device: u8, setting: u8) -> Result<(), ShelfFault> {
        let known = device_of(self.shape(), device)?;
        if setting >= self.shape()[known] {
            return Err(ShelfFault::SettingHigh);
        }
        let target = peg_of(target)?;
        let _ = self.chart(source)?;
        let task = Task::Put {
            peg: source,
            device,
            setting,
        };
        self.hang_task(task, target)
    }

    fn wipe(&mut self, peg: u8) -> Result<(), ShelfFault> {
        let peg = peg_of(peg)?;
        self.charts.pegs[peg.number] = None;
        Ok(())
    }

    fn same(&self, left: u8, right: u8) -> Result<bool, ShelfFault> {
        let (x, y) = self.charts(left, right)?;
        Ok(x == y)
    }

    fn at(&self, peg: u8, scene: &[u8]) -> Result<Option<u64>, ShelfFault> {
        judge_scene(self.shape(), scene)?;
        let edge = self.chart(peg)?;
        Ok(walk(&self.charts.diagrams.store, scene, 0, edge))
    }

    fn shape(&self) -> &[u8] {
        self.charts.diagrams.store.shape()
    }
}
