//! Items taken off the front of bytes, or passed over.
ghost use Rattle.std.specs.Prelude.{◌≡◌, ◌<◌, [], ◌∷◌, ◌++◌, length, None, MatchBool, MatchOption};
ghost use Rattle.std.specs.List.{flat_map};
ghost use Rattle.format.specs.Bytes.{two};
ghost use Rattle.format.specs.Files.{surcharge as surcharge_bytes, entry as entry_bytes};
ghost use Rattle.framing.specs.Reading.{Any, Takes, Passes, Skips, Numbered, Moves, Follows, toll as toll_bytes, head as head_bytes, opening};

use crate::heads::*;

/// Whether a move of that number may stand behind the last one.
fn follows(last: Option<u8>, number: u8) -> bool
    ensures { MatchBool result (Follows last number) (Follows last number → ⊥) }
{
    last < Some(number)
}

/// What is left of a file.
#[derive(Drop)]
pub struct Reader<'a> {
    pub rest: &'a [u8],
}

// What is made of several parts is taken from a copy of the reader, so that the reader stays as it was where one is missing.
impl<'a> Reader<'a> {
    /// Takes a part of so many bytes, as it stands.
    pub fn part(&mut self, count: usize) -> Option<&'a [u8]>
        ensures { MatchOption result (length self.old.rest.now < count) (λ xs. (length xs.now ≡ count) × (self.old.rest.now ≡ xs.now ++ self.new.rest.now)) }
    {
        self.rest.split_off(..count)
    }

    /// Passes over so many bytes.
    pub fn skip(&mut self, count: usize) -> Option<()>
        ensures { Skips count result self.old.rest.now self.new.rest.now }
    {
        self.rest.split_off(..count).map(|_| ())
    }

    /// Takes so many bytes.
    pub fn take<const N: usize>(&mut self) -> Option<[u8; N]>
        ensures { MatchOption result (length self.old.rest.now < N) (λ xs. self.old.rest.now ≡ xs ++ self.new.rest.now) }
    {
        let (first, rest) = self.rest.split_first_chunk()?;
        self.rest = rest;
        Some(*first)
    }

    /// Takes a number of two bytes, the low byte first.
    fn number(&mut self) -> Option<u16>
        ensures { MatchOption result (length self.old.rest.now < 2) (λ n. self.old.rest.now ≡ two n ++ self.new.rest.now) }
    {
        self.take().map(u16::from_le_bytes)
    }

    /// Takes what stands before the tests of a surcharge.
    pub fn toll(&mut self) -> Option<Toll>
        ensures taken { Takes toll_bytes result self.old.rest.now self.new.rest.now }
        ensures kept { result ≡ None → self.new.rest.now ≡ self.old.rest.now }
    {
        let mut ahead = Reader { rest: self.rest };
        let [count] = ahead.take::<1>()?;
        let extra = ahead.number()?;
        self.rest = ahead.rest;
        Some(Toll { count, extra })
    }

    /// Takes what stands before the lists of a move.
    pub fn head(&mut self) -> Option<Head>
        ensures taken { Takes head_bytes result self.old.rest.now self.new.rest.now }
        ensures kept { result ≡ None → self.new.rest.now ≡ self.old.rest.now }
    {
        let mut ahead = Reader { rest: self.rest };
        let [number, conditions, effects, surcharges] = ahead.take::<4>()?;
        let base = ahead.number()?;
        self.rest = ahead.rest;
        Some(Head {
            number,
            conditions,
            effects,
            surcharges,
            base,
        })
    }

    /// Takes what stands before everything else.
    pub fn header(&mut self) -> Option<Header>
        ensures taken { Takes opening result self.old.rest.now self.new.rest.now }
        ensures kept { result ≡ None → self.new.rest.now ≡ self.old.rest.now }
    {
        let mut ahead = Reader { rest: self.rest };
        let [version, devices, moves, zero] = ahead.take::<4>()?;
        let first = ahead.number()?;
        let second = ahead.number()?;
        let third = ahead.number()?;
        let total = ahead.number()?;
        self.rest = ahead.rest;
        Some(Header {
            version,
            devices,
            moves,
            zero,
            first,
            second,
            third,
            total,
        })
    }

    fn surcharge(&mut self) -> Option<()>
        ensures { Passes Any surcharge_bytes result self.old.rest.now self.new.rest.now }
    {
        let toll = self.toll()?;
        self.skip(2 * usize::from(toll.count))
    }

    fn surcharges(&mut self, count: u8) -> Option<()>
        ensures { Passes (λ xs. length xs ≡ count) (flat_map surcharge_bytes) result self.old.rest.now self.new.rest.now }
    {
        // A loop: `try_for_each(|_| self.surcharge())` was tried; after it a proof knows nothing of what the closure left.
        for _ in 0..count {
            self.surcharge()?;
        }
        Some(())
    }

    /// Passes over a move, and answers its number.
    fn entry(&mut self) -> Option<u8>
        ensures { Numbered result self.old.rest.now self.new.rest.now }
    {
        let head = self.head()?;
        self.skip(2 * usize::from(head.conditions))?;
        self.skip(2 * usize::from(head.effects))?;
        self.surcharges(head.surcharges)?;
        Some(head.number)
    }

    /// Passes over so many moves by strictly rising number.
    pub fn entries(&mut self, count: u8) -> Option<()>
        ensures { Passes (Moves count) (flat_map entry_bytes) result self.old.rest.now self.new.rest.now }
    {
        // A loop: `try_fold` with the last number was tried; after it a proof knows nothing of what the closure left.
        let mut last = None;
        for _ in 0..count {
            let number = self.entry()?;
            follows(last, number).then_some(())?;
            last = Some(number);
        }
        Some(())
    }
}
