ghost use Rattle.std.specs.Prelude.{◌≡◌, Ok, MatchResult, IfOk};
ghost use Rattle.lists.specs.Shorts.{listed};
ghost use Rattle.diagram.specs.Means.{means};
ghost use Rattle.diagram.specs.Openings.{diagram_opens, diagram_opened, Unopened, Opened};

use crate::diagram_shelf::DiagramShelf;
use crate::open_fault::OpenFault;
use build::node_store::NodeStore;
use hang::charts::Charts;
use hang::charts::retry::LEAST_LIMIT;
use lists::counts::shape_off;
use lists::limits::{MOST_DEVICES, MOST_NODES, PEGS};
use lists::short::Short;
use memo::diagrams::Diagrams;
use std::alloc::{AllocError, Global};

/// How many settings each device has, where a shelf of them may open with so many node slots.
fn judged(settings: &[u8], slots: usize) -> Result<Short<u8, MOST_DEVICES>, OpenFault>
    ensures { MatchResult result (λ counts. (diagram_opens settings.now slots ≡ Ok tt) × (listed counts ≡ settings.now)) (Unopened settings.now slots) }
{
    if shape_off(settings) {
        return Err(OpenFault::CountsOff);
    }
    if !(1..=MOST_NODES).contains(&slots) {
        return Err(OpenFault::SlotsOff);
    }
    Short::of(settings, 0).ok_or(OpenFault::CountsOff)
}

impl DiagramShelf {
    /// A shelf with every peg bare, where there is memory for its slots.
    fn empty(
        heap: Global,
        counts: Short<u8, MOST_DEVICES>,
        slots: usize,
    ) -> Result<DiagramShelf, AllocError>
        requires opens { diagram_opens (listed counts) slots ≡ Ok tt }
        ensures opened { IfOk result (λ s. means s ≡ diagram_opened (listed counts) slots) }
    {
        let store = NodeStore::of(counts, vec![in heap; None; slots]?);
        let spare = NodeStore::of(counts, vec![in heap; None; slots]?);
        let moved = vec![in heap; None; slots]?;
        let diagrams = Diagrams::of(store, vec![in heap; None; 4 * slots]?);
        let charts = Charts {
            diagrams,
            pegs: [None; PEGS],
            limit: LEAST_LIMIT,
        };
        Ok(DiagramShelf {
            charts,
            spare,
            moved,
        })
    }

    /// A shelf of the shape with every peg bare and so many node slots. All its memory is taken here.
    pub fn open(heap: Global, settings: &[u8], slots: usize) -> Result<DiagramShelf, OpenFault>
        ensures opened { Opened settings.now slots result }
    {
        let counts = judged(settings, slots)?;
        DiagramShelf::empty(heap, counts, slots).map_err(|_| OpenFault::NoMemory)
    }
}
