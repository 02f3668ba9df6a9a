//! Every limit, named once.

pub const MOST_DEVICES: usize = 12;

pub const LEAST_SETTINGS: u8 = 2;

pub const MOST_SETTINGS: usize = 8;
/// The bytes of a name are printable.
pub const LEAST_BYTE: u8 = 32;

pub const MOST_BYTE: u8 = 126;

pub const MOST_SLOTS: usize = 255;

pub const MOST_CONDITIONS: usize = 12;

pub const MOST_EFFECTS: usize = 12;

pub const MOST_SURCHARGES: usize = 8;

pub const MOST_TESTS: usize = 3;
/// A move's base and all its extras together, in tenths of a second.
pub const MOST_TENTHS: u32 = 65_535;
/// The greatest time that a chart may have.
pub const MOST_TIME: u64 = 1_000_000_000_000_000_000;
/// How many node slots a diagram shelf may have.
pub const MOST_NODES: usize = 65_535;
/// How many pegs a shelf has.
pub const PEGS: usize = 8;
