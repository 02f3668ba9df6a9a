//! What the program works with.

/// The most bytes that it reads.
pub const MOST_INPUT: usize = 65_535;

/// How many move slots its rig has.
pub const MOVE_SLOTS: usize = 255;

/// How many node slots its diagram shelf has.
pub const NODE_SLOTS: usize = 512;

/// How many bytes its sheet has.
pub const SHEET_LENGTH: usize = 4_096;
