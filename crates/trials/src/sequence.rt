//! The pseudo-random sequence of the trials: SplitMix64, by Steele, Lea and Flood.
ghost use Rattle.std.specs.Prelude.{◌<◌, ◌≤◌};

/// How far the state moves on at each draw.
const STRIDE: u64 = 0x9E37_79B9_7F4A_7C15;

const FIRST_FACTOR: u64 = 0xBF58_476D_1CE4_E5B9;

const SECOND_FACTOR: u64 = 0x94D0_49BB_1331_11EB;

/// A place in the sequence. Each trial begins one of its own.
#[derive(Drop)]
pub struct Sequence {
    state: u64,
}

impl Sequence {
    /// The sequence that begins at a state.
    pub fn from_state(state: u64) -> Self {
        Sequence { state }
    }

    /// The next number of 64 bits.
    pub fn draw(&mut self) -> u64 {
        self.state = self.state.wrapping_add(STRIDE);
        let mixed = (self.state ^ (self.state >> 30)).wrapping_mul(FIRST_FACTOR);
        let mixed = (mixed ^ (mixed >> 27)).wrapping_mul(SECOND_FACTOR);
        mixed ^ (mixed >> 31)
    }

    /// A number below the bound: the remainder of the next draw. Below 0 it is 0.
    pub fn below(&mut self, bound: u64) -> u64
        ensures least { result ≤ bound }
        ensures below { 0 < bound → result < bound }
    {
        self.draw().checked_rem(bound).unwrap_or(0)
    }

    /// A byte below the bound, or 0.
    pub fn byte_below(&mut self, bound: u8) -> u8
        ensures { 0 < bound → result < bound }
    {
        self.below(u64::from(bound)) as u8
    }

    /// Any byte.
    pub fn byte(&mut self) -> u8 {
        u8::try_from(self.below(256)).unwrap_or(0)
    }

    /// A place in a list of so many items, or 0.
    pub fn place_below(&mut self, bound: usize) -> usize
        ensures { 0 < bound → result < bound }
    {
        self.below(bound as u64) as usize
    }

    /// One of the items, or what stands in for none.
    pub fn one_of(&mut self, items: &[u64], otherwise: u64) -> u64 {
        let place = self.place_below(items.len());
        items.get(place).copied().unwrap_or(otherwise)
    }

    /// Yes once in so many draws.
    pub fn once_in(&mut self, many: u64) -> bool {
        self.below(many) == 0
    }
}
