ghost use Rattle.std.specs.Prelude.{◌≡◌, ◌^◌, ◌%◌, ◌<◌};
ghost use Rattle.nodes.specs.Hashes.{mixed, code as the_code};

use crate::edge::Edge;

/// What a number is mixed with stays below this, and what comes of it.
const MODULUS: u64 = 4_294_967_296;

/// An odd number whose bits look random: each bit of what it multiplies reaches the upper half of the product.
const FACTOR: u64 = 17_380_933_483_125_451_205;

/// A number that depends on an edge's weight and child.
fn code(e: Edge) -> u64
    ensures value { result ≡ the_code e }
    ensures bound { result < 2 ^ 49 }
{
    u64::from(e.child) + e.weight.map_or(0, |w| (1 + w % MODULUS) * 65_536)
}

/// A number that depends on `start` and each of the edges.
pub fn mix(start: u64, edges: &[Edge]) -> u64
    requires { start < 4294967296 }
    ensures { result ≡ mixed start edges.now }
{
    edges.iter().fold(start, |h, e| (h + code(*e)).wrapping_mul(FACTOR) / MODULUS)
}

/// The slot, among so many, at which a search starts: it depends on what is mixed first and on each of the edges.
pub fn start(first: u32, edges: &[Edge], slots: usize) -> usize
    requires { 0 < slots }
    ensures value { result ≡ mixed first edges.now % slots }
    ensures within { result < slots }
{
    // `as` both ways, since `u64` and `usize` have no `From`; neither loses anything.
    (mix(u64::from(first), edges) % slots as u64) as usize
}
