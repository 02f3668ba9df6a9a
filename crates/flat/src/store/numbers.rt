ghost use Rattle.std.specs.Prelude.{length, MatchResult};
ghost use Rattle.shelf.specs.Shapes.{shape_of};
ghost use Rattle.shelf.specs.Numbers.{Names, High, Hangs, NoChart, NoCharts};

use crate::store::FlatShelf;
use shelf::fault::ShelfFault;
use shelf::numbers::{Peg, device_of, peg_of};

impl FlatShelf {
    /// The device of a number, where there is one.
    pub(crate) fn device(&self, number: u8) -> Result<usize, ShelfFault>
        ensures { MatchResult result (Names (length (shape_of self.now.shape)) number) (High ShelfFault.DeviceHigh (length (shape_of self.now.shape)) number) }
    {
        device_of(self.shape.settings(), number)
    }

    /// The peg of a number, where a chart hangs on it.
    pub(crate) fn chart(&self, number: u8) -> Result<Peg, ShelfFault>
        ensures { MatchResult result (λ p. Hangs self.now.hung number p.number) (NoChart self.now.hung number) }
    {
        let peg = peg_of(number)?;
        self.hung[peg.number]
            .then_some(peg)
            .ok_or(ShelfFault::PegBare)
    }

    /// The pegs of two numbers, where charts hang on both.
    // Not `chart` twice: both numbers are judged before either peg, as the order of refusals asks.
    pub(crate) fn charts(&self, left: u8, right: u8) -> Result<(Peg, Peg), ShelfFault>
        ensures { MatchResult result (λ p. Hangs self.now.hung left p.0.number × Hangs self.now.hung right p.1.number) (NoCharts self.now.hung left right) }
    {
        let left = peg_of(left)?;
        let right = peg_of(right)?;
        (self.hung[left.number] && self.hung[right.number])
            .then_some((left, right))
            .ok_or(ShelfFault::PegBare)
    }
}
