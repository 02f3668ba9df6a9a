ghost use Rattle.std.specs.Prelude.{MatchResult};
ghost use Rattle.shelf.specs.Numbers.{NoChart, NoCharts};
ghost use Rattle.diagram.specs.Numbers.{Carries, hung_in};

use crate::diagram_shelf::DiagramShelf;
use nodes::edge::Edge;
use shelf::fault::ShelfFault;
use shelf::numbers::peg_of;

impl DiagramShelf {
    /// The edge of the chart on the peg of a number.
    pub(crate) fn chart(&self, number: u8) -> Result<Edge, ShelfFault>
        ensures { MatchResult result (Carries self.now.charts.pegs number) (NoChart (hung_in self.now.charts.pegs) number) }
    {
        let peg = peg_of(number)?;
        self.charts.pegs[peg.number].ok_or(ShelfFault::PegBare)
    }

    /// The edges of the charts on the pegs of two numbers.
    // Not `chart` twice: both numbers are judged before either peg, as the order of refusals asks.
    pub(crate) fn charts(&self, left: u8, right: u8) -> Result<(Edge, Edge), ShelfFault>
        ensures { MatchResult result (λ p. Carries self.now.charts.pegs left p.0 × Carries self.now.charts.pegs right p.1) (NoCharts (hung_in self.now.charts.pegs) left right) }
    {
        let left = peg_of(left)?;
        let right = peg_of(right)?;
        let pegs = &self.charts.pegs;
        pegs[left.number]
            .zip(pegs[right.number])
            .ok_or(ShelfFault::PegBare)
    }
}
