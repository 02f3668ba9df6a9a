ghost use Rattle.flat.specs.Means.{means};
ghost use Rattle.flat.specs.Hanging.{sound_of};

use crate::store::FlatShelf;
use cells::joins::{Lesser, Sum};
use cells::rows::{same_rows, some_late};
use lists::limits::MOST_SETTINGS;
use shelf::calls::Shelf;
use shelf::fault::ShelfFault;
use shelf::numbers::peg_of;

/// A flat shelf always has room.
impl Shelf for FlatShelf {
    ghost meaning = { means };

    ghost sound = { sound_of };

    fn dial(
        &mut self,
        target: u8,
        device: u8,
        entries: &[Option<u64>; MOST_SETTINGS],
    ) -> Result<(), ShelfFault> {
        let device = self.device(device)?;
        let target = peg_of(target)?;
        if some_late(&entries[..self.shape.count(device)]) {
            return Err(ShelfFault::TimeHigh);
        }
        self.hang_dial(target, device, entries);
        Ok(())
    }

    fn cheaper(&mut self, target: u8, left: u8, right: u8) -> Result<(), ShelfFault> {
        let target = peg_of(target)?;
        let (left, right) = self.charts(left, right)?;
        self.hang_joined::<Lesser>(target, left, right);
        Ok(())
    }

    fn sum(&mut self, target: u8, left: u8, right: u8) -> Result<(), ShelfFault> {
        let target = peg_of(target)?;
        let (left, right) = self.charts(left, right)?;
        if self.sum_is_late(left, right) {
            return Err(ShelfFault::TimeHigh);
        }
        self.hang_joined::<Sum>(target, left, right);
        Ok(())
    }

    fn put(&mut self, target: u8, source: u8, device: u8, setting: u8) -> Result<(), ShelfFault> {
        let device = self.device(device)?;
        let setting = usize::from(setting);
        if setting >= self.shape.count(device) {
            return Err(ShelfFault::SettingHigh);
        }
        let target = peg_of(target)?;
        let source = self.chart(source)?;
        self.hang_put(target, source, device, setting);
        Ok(())
    }

    fn wipe(&mut self, peg: u8) -> Result<(), ShelfFault> {
        let peg = peg_of(peg)?;
        self.hung[peg.number] = false;
        Ok(())
    }

    fn same(&self, left: u8, right: u8) -> Result<bool, ShelfFault> {
        let (left, right) = self.charts(left, right)?;
        Ok(same_rows(self.row(left), self.row(right)))
    }

    fn at(&self, peg: u8, scene: &[u8]) -> Result<Option<u64>, ShelfFault> {
        let place = self.shape.place(scene)?;
        let peg = self.chart(peg)?;
        Ok(self.row(peg)[place])
    }

    fn shape(&self) -> &[u8] {
        self.shape.settings()
    }
}
