ghost use Rattle.std.specs.Prelude.{◌≡◌, length};
ghost use Rattle.std.specs.List.{AllByRecursion};
ghost use Rattle.build.specs.Grew.{nodes_in, shape_in};
ghost use Rattle.collect.specs.Collecting.{Lasts};
ghost use Rattle.pegs.specs.Held.{Alike, Held, Collected, Swept, peg_fine, CopiesPeg};

use build::node_store::NodeStore;
use collect::collector::Collector;
use collect::moved::forget;
use nodes::edge::Edge;

/// What a peg carries, copied into the spare store; a bare peg stays bare.
fn copy_peg(collector: &mut Collector<'_>, peg: Option<Edge>) -> Option<Edge>
    requires fine { peg_fine collector.old.source.now (shape_in collector.old.spare.now) peg }
    ensures lasts { Lasts collector.old collector.new }
    ensures copies { CopiesPeg collector.old.source.now collector.old.spare.now collector.new.spare.now peg result }
{
    collector.copy(0, peg?)
}

/// Copies what each peg carries into the spare store.
fn copy_pegs(collector: &mut Collector<'_>, pegs: &mut [Option<Edge>])
    requires fine { AllByRecursion (peg_fine collector.old.source.now (shape_in collector.old.spare.now)) pegs.old }
    requires start { Swept collector.old.source.now (nodes_in collector.old.spare.now) (shape_in collector.old.spare.now) pegs.old pegs.old 0 }
    ensures lasts { Lasts collector.old collector.new }
    ensures shape { shape_in collector.new.spare.now ≡ shape_in collector.old.spare.now }
    ensures swept { Swept collector.old.source.now (nodes_in collector.new.spare.now) (shape_in collector.old.spare.now) pegs.old pegs.new (length pegs.old) }
{
    for peg in pegs.iter_mut() {
        *peg = copy_peg(collector, *peg);
    }
}

/// Copies what the pegs reach into another store, which then holds nothing else.
pub fn sweep(
    source: &NodeStore,
    spare: &mut NodeStore,
    moved: &mut [Option<u16>],
    pegs: &mut [Option<Edge>],
)
    requires held { Held source.now pegs.old }
    requires alike { Alike source.now spare.old }
    ensures { Collected source.now spare.new pegs.old pegs.new }
{
    spare.clear();
    forget(moved);
    let mut collector = Collector {
        source: source.as_slice(),
        spare,
        moved,
    };
    copy_pegs(&mut collector, pegs);
}
