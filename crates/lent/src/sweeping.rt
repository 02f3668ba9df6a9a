ghost use Rattle.std.specs.Prelude.{◌≡◌, length};
ghost use Rattle.std.specs.List.{AllByRecursion};
ghost use Rattle.store.specs.Stores.{Store};
ghost use Rattle.build.specs.Builds.{Ready};
ghost use Rattle.collect.specs.Copies.{Moved};
ghost use Rattle.pegs.specs.Held.{peg_fine, Swept};
ghost use Rattle.lent.specs.Held.{Held, Collected, CopiesPeg};

use crate::copying::copy;
use collect::moved::forget;
use nodes::edge::Edge;
use nodes::node::Node;
use table::slots::clear;

/// What a peg carries, copied into other slots; a bare peg stays bare.
fn copy_peg(
    source: &[Option<Node>],
    nodes: &mut [Option<Node>],
    moved: &mut [Option<u16>],
    settings: &[u8],
    peg: Option<Edge>,
) -> Option<Edge>
    requires store { Store source.now settings.now }
    requires ready { Ready nodes.old settings.now }
    requires moved { Moved source.now nodes.old settings.now moved.old }
    requires fine { peg_fine source.now settings.now peg }
    ensures moved { Moved source.now nodes.new settings.now moved.new }
    ensures copies { CopiesPeg source.now nodes.old nodes.new settings.now peg result }
{
    copy(source, nodes, moved, settings, 0, peg?)
}

/// Copies what each peg carries into other slots.
fn copy_pegs(
    source: &[Option<Node>],
    spare: &mut [Option<Node>],
    moved: &mut [Option<u16>],
    settings: &[u8],
    pegs: &mut [Option<Edge>],
)
    requires held { Held source.now settings.now pegs.old }
    requires ready { Ready spare.old settings.now }
    requires start { Swept source.now spare.old settings.now pegs.old pegs.old 0 }
    requires moved { Moved source.now spare.old settings.now moved.old }
    ensures ready { Ready spare.new settings.now }
    ensures swept { Swept source.now spare.new settings.now pegs.old pegs.new (length pegs.old) }
{
    for peg in pegs.iter_mut() {
        *peg = copy_peg(source, spare, moved, settings, *peg);
    }
}

/// Copies what the pegs reach into other slots, which then hold nothing else.
pub(crate) fn sweep(
    source: &[Option<Node>],
    spare: &mut [Option<Node>],
    moved: &mut [Option<u16>],
    settings: &[u8],
    pegs: &mut [Option<Edge>],
)
    requires held { Held source.now settings.now pegs.old }
    requires size { length spare.old ≡ length source.now }
    ensures { Collected source.now spare.new settings.now pegs.old pegs.new }
{
    clear(spare);
    forget(moved);
    copy_pegs(source, spare, moved, settings, pegs);
}
