//! The moves of a file, taken one after another.
ghost use Rattle.std.specs.Prelude.{◌≡◌, length};
ghost use Rattle.std.specs.List.{flat_map};
ghost use Rattle.lists.specs.Shorts.{listed};
ghost use Rattle.moves.specs.Views.{pairs_of};
ghost use Rattle.drafts.specs.Drafts.{charge_of, charges_of, draft_of};
ghost use Rattle.format.specs.Bytes.{pair};
ghost use Rattle.format.specs.Files.{surcharge, entry};
ghost use Rattle.framing.specs.Reading.{Any, toll as toll_bytes, head as head_bytes};
ghost use Rattle.rigfile.specs.Taking.{Laid, Gives, entry_of};

use crate::pairs::past;
use drafts::draft::{Charge, Draft};
use framing::heads::{Head, Toll};
use framing::reader::Reader;
use lists::short::Short;
use moves::pair::Pair;

/// As many items as a count of one byte can say.
pub(crate) const MOST_COUNTED: usize = 255;

/// Fills the room past the end of a bounded list; never read.
const NO_CHARGE: Charge<'static> = Charge {
    tests: &[],
    extra: 0,
};

/// What is left of the moves of a file: its bytes, and the same as pairs, from this byte on and from the next.
// Pairs both ways, since a list may begin at an even or at an odd byte; so each list is a part of one of them, and no
// memory is filled for a move.
#[derive(Drop)]
pub(crate) struct Taker<'a> {
    pub(crate) reader: Reader<'a>,
    pub(crate) here: &'a [Pair],
    pub(crate) next: &'a [Pair],
}

/// A move with its number, as it stands in a file.
#[derive(Clone, Copy)]
pub(crate) struct NumberedMove<'a> {
    pub(crate) head: Head,
    pub(crate) conditions: &'a [Pair],
    pub(crate) effects: &'a [Pair],
    pub(crate) charges: Short<Charge<'a>, MOST_COUNTED>,
}

impl<'a> Taker<'a> {
    fn pairs(&mut self, count: u8) -> Option<&'a [Pair]>
        requires { Laid self.old }
        ensures { Gives (λ ps. length ps ≡ count) (λ ps. pairs_of ps.now) (flat_map pair) result self.old self.new }
    {
        let count = usize::from(count);
        let (pairs, here) = self.here.split_at_checked(count)?;
        self.reader.skip(2 * count)?;
        self.here = here;
        self.next = past(self.next, count);
        Some(pairs)
    }

    fn toll(&mut self) -> Option<Toll>
        requires { Laid self.old }
        ensures { Gives Any (λ t. t) toll_bytes result self.old self.new }
    {
        let toll = self.reader.toll()?;
        let here = past(self.next, 1);
        self.next = past(self.here, 2);
        self.here = here;
        Some(toll)
    }

    fn head(&mut self) -> Option<Head>
        requires { Laid self.old }
        ensures { Gives Any (λ h. h) head_bytes result self.old self.new }
    {
        let head = self.reader.head()?;
        self.here = past(self.here, 3);
        self.next = past(self.next, 3);
        Some(head)
    }

    fn charge(&mut self) -> Option<Charge<'a>>
        requires { Laid self.old }
        ensures { Gives Any charge_of surcharge result self.old self.new }
    {
        let toll = self.toll()?;
        let tests = self.pairs(toll.count)?;
        Some(Charge {
            tests,
            extra: toll.extra,
        })
    }

    fn charges(&mut self, count: u8) -> Option<Short<Charge<'a>, MOST_COUNTED>>
        requires { Laid self.old }
        ensures { Gives (λ xs. length xs ≡ count) (λ cs. charges_of (listed cs)) (flat_map surcharge) result self.old self.new }
    {
        let mut charges = Short::new(NO_CHARGE);
        for _ in 0..count {
            let charge = self.charge()?;
            charges.push(charge)?;
        }
        Some(charges)
    }

    /// Takes a move.
    pub(crate) fn entry(&mut self) -> Option<NumberedMove<'a>>
        requires { Laid self.old }
        ensures { Gives Any entry_of entry result self.old self.new }
    {
        let head = self.head()?;
        let conditions = self.pairs(head.conditions)?;
        let effects = self.pairs(head.effects)?;
        let charges = self.charges(head.surcharges)?;
        Some(NumberedMove {
            head,
            conditions,
            effects,
            charges,
        })
    }
}

impl NumberedMove<'_> {
    /// The move as it is handed in.
    pub(crate) fn draft(&self) -> Draft<'_>
        ensures { draft_of result ≡ (entry_of self.now).move }
    {
        Draft {
            conditions: self.conditions,
            effects: self.effects,
            base: self.head.base,
            surcharges: self.charges.as_slice(),
        }
    }
}
