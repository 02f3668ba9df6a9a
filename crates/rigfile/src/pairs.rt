//! Bytes as pairs, so that the lists of a move can be lent where they stand.
ghost use Rattle.std.specs.Prelude.{◌≡◌, ◌<◌, drop, length, MatchOption};
ghost use Rattle.lists.specs.Shorts.{listed};
ghost use Rattle.moves.specs.Views.{pairs_of};
ghost use Rattle.rigfile.specs.Taking.{pairing};

use framing::reader::Reader;
use lists::short::Short;
use moves::pair::Pair;

/// The pairs that stand in the longest file, whose length has two bytes.
pub(crate) const MOST_PAIRS: usize = 32_767;

/// Fills the room past the end of a bounded list; never read.
const NO_PAIR: Pair = Pair {
    device: 0,
    setting: 0,
};

/// The bytes two by two as pairs, or nothing where they are more than a file has.
pub(crate) fn paired(bytes: &[u8]) -> Option<Short<Pair, MOST_PAIRS>>
    ensures { MatchOption result (65535 < length bytes.now) (λ ps. pairs_of (listed ps) ≡ pairing bytes.now) }
{
    let mut pairs = Short::new(NO_PAIR);
    let mut reader = Reader { rest: bytes };
    for _ in 0..bytes.len() / 2 {
        let [device, setting] = reader.take::<2>()?;
        pairs.push(Pair { device, setting })?;
    }
    Some(pairs)
}

/// What stands behind the first so many items.
pub(crate) fn past<T>(items: &[T], count: usize) -> &[T]
    ensures { result.now ≡ drop count items.now }
{
    items.get(count..).unwrap_or_default()
}
