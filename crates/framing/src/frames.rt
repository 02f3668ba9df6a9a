//! The frame of a rig file.
ghost use Rattle.std.specs.Prelude.{MatchBool, MatchOption};
ghost use Rattle.framing.specs.Frames.{Plain, Framed};

use crate::heads::Header;
use crate::reader::Reader;

/// Whether version, zero byte, offsets and length are those of a file in so many bytes.
fn is_plain(header: Header, size: usize) -> bool
    ensures { MatchBool result (Plain header size) (Plain header size → ⊥) }
{
    let count = u16::from(header.devices);
    header.version == 1
        && header.zero == 0
        && header.first == 12
        && header.second == 12 + 9 * count
        && header.third == 12 + 11 * count
        && usize::from(header.total) == size
}

/// Passes over a whole file, or nothing where the bytes are no such file.
fn pass(bytes: &[u8]) -> Option<()>
    ensures { MatchOption result (Framed bytes.now → ⊥) (λ _. Framed bytes.now) }
{
    let mut reader = Reader { rest: bytes };
    let header = reader.header()?;
    is_plain(header, bytes.len()).then_some(())?;
    reader.skip(11 * usize::from(header.devices))?;
    reader.entries(header.moves)?;
    reader.rest.is_empty().then_some(())
}

/// Whether the bytes are the file of something listed, whether or not a rig takes it.
pub fn is_framed(bytes: &[u8]) -> bool
    ensures { MatchBool result (Framed bytes.now) (Framed bytes.now → ⊥) }
{
    pass(bytes).is_some()
}
