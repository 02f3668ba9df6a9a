ghost use Rattle.std.specs.Prelude.{◌≡◌, ◌+◌, ◌<◌, true, false, length, take, drop, slice_index};
ghost use Rattle.model.specs.Charts.{late, plus, zipped, dialled, put_chart, greatest as greatest_of};
ghost use Rattle.model.specs.Lists.{some};
ghost use Rattle.model.specs.Scenes.{size};
ghost use Rattle.shelf.specs.Shapes.{shape_of};
ghost use Rattle.flat.specs.Means.{means, row_of, hanging};

use crate::store::FlatShelf;
use cells::joins::Join;
use cells::rows::{greatest, join_rows};
use cells::runs::{Strides, dial_row, put_row};
use lists::limits::MOST_SETTINGS;
use shelf::numbers::Peg;
use times::sum_is_late;

impl FlatShelf {
    /// The row of cells of a peg.
    pub(crate) fn row(&self, peg: Peg) -> &[Option<u64>]
        ensures value { result.now ≡ row_of self.now peg.number }
    {
        let n = self.shape.scenes();
        let cells = self.cells.as_slice();
        &cells[peg.number * n..peg.number * n + n]
    }

    /// Whether the greatest times of two rows add to more than the greatest that a chart may have.
    pub(crate) fn sum_is_late(&self, left: Peg, right: Peg) -> bool
        requires legal { (some late (row_of self.now left.number) ≡ false) × (some late (row_of self.now right.number) ≡ false) }
        ensures value { result ≡ late (plus (greatest_of (row_of self.now left.number)) (greatest_of (row_of self.now right.number))) }
    {
        sum_is_late(greatest(self.row(left)), greatest(self.row(right)))
    }

    /// How the rows fall into runs for the settings of a device.
    fn strides(&self, device: usize) -> Strides
        requires low { device < length (shape_of self.now.shape) }
        ensures blocks { result.blocks ≡ size (take device (shape_of self.now.shape)) }
        ensures count { result.count ≡ slice_index (shape_of self.now.shape) device }
        ensures stride { result.stride ≡ size (drop (device + 1) (shape_of self.now.shape)) }
    {
        Strides {
            blocks: self.shape.blocks(device),
            count: self.shape.count(device),
            stride: self.shape.stride(device),
        }
    }

    /// Hangs two rows joined.
    pub(crate) fn hang_joined<J: Join>(&mut self, target: Peg, left: Peg, right: Peg)
        requires legal { some late (zipped J.Join.joins (row_of self.old left.number) (row_of self.old right.number)) ≡ false }
        ensures hung { means self.new ≡ hanging (means self.old) target.number (zipped J.Join.joins (row_of self.old left.number) (row_of self.old right.number)) }
    {
        let n = self.shape.scenes();
        let cells = self.cells.as_mut_slice();
        join_rows::<J>(
            cells,
            n,
            target.number * n,
            left.number * n,
            right.number * n,
        );
        self.hung[target.number] = true;
    }

    /// Hangs the dial of a device.
    pub(crate) fn hang_dial(
        &mut self,
        target: Peg,
        device: usize,
        entries: &[Option<u64>; MOST_SETTINGS],
    )
        requires low { device < length (shape_of self.old.shape) }
        requires legal { some late (dialled (shape_of self.old.shape) device entries.now) ≡ false }
        ensures hung { means self.new ≡ hanging (means self.old) target.number (dialled (shape_of self.old.shape) device entries.now) }
    {
        let n = self.shape.scenes();
        let strides = self.strides(device);
        dial_row(
            self.cells.as_mut_slice(),
            target.number * n,
            strides,
            entries,
        );
        self.hung[target.number] = true;
    }

    /// Hangs what a row gives once a device is at a setting.
    pub(crate) fn hang_put(&mut self, target: Peg, source: Peg, device: usize, setting: usize)
        requires low { (device < length (shape_of self.old.shape)) × (setting < slice_index (shape_of self.old.shape) device) }
        requires legal { some late (put_chart (shape_of self.old.shape) device setting (row_of self.old source.number)) ≡ false }
        ensures hung { means self.new ≡ hanging (means self.old) target.number (put_chart (shape_of self.old.shape) device setting (row_of self.old source.number)) }
    {
        let n = self.shape.scenes();
        let strides = self.strides(device);
        put_row(
            self.cells.as_mut_slice(),
            target.number * n,
            source.number * n,
            strides,
            setting,
        );
        self.hung[target.number] = true;
    }
}
