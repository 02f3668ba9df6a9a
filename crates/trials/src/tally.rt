//! What the trials saw, counted, so that a kind that never came would show.
ghost use Rattle.std.specs.Prelude.{◌≡◌, ◌+◌, ◌-◌, ◌^◌, max, min};

use std::io;

/// How many kinds of diagram shelf are tried.
const SIZES: usize = 7;

/// How many node slots each of them has.
pub const CAPACITIES: [usize; SIZES] = [4, 8, 16, 32, 64, 512, 4096];

/// By how many numbers a file can be refused.
const NUMBERS: usize = 11;

/// The numbers by which open, want, add and the frame of a file refuse it.
const REFUSALS: [u8; NUMBERS] = [1, 2, 3, 4, 7, 8, 9, 10, 11, 13, 20];

/// Counts of what was seen.
#[derive(Drop)]
pub struct Tally {
    pub rigs: u64,
    pub ways: u64,
    pub no_ways: u64,
    pub moves: u64,
    /// Rigs with more than one quickest run.
    pub ties: u64,
    /// Rigs whose quickest runs were gone through one by one.
    pub exhausted: u64,
    pub most_scenes: u64,
    pub most_moves: u64,
    pub most_runs: u64,
    pub most_rounds: u64,
    /// Plans with "no room", for each capacity.
    pub no_rooms: [u64; SIZES],
    /// Rigs planned with as many node slots as the rule needs, and with fewer.
    pub filled: u64,
    pub hangings: u64,
    pub most_parts: u64,
    pub written: u64,
    pub read_back: u64,
    /// Damaged files that were read.
    pub accepted: u64,
    /// Damaged files that were refused, by the number of the refusal.
    pub refused: [u64; NUMBERS],
}

/// Adds to a count, as far as it goes.
pub fn add_to(count: &mut u64, more: u64)
    ensures { count.new ≡ min (count.old + more) (2 ^ 64 - 1) }
{
    *count = count.saturating_add(more);
}

/// Raises a greatest number to another.
pub fn raise_to(greatest: &mut u64, number: u64)
    ensures { greatest.new ≡ max greatest.old number }
{
    *greatest = number.max(*greatest);
}

impl Tally {
    /// Nothing seen yet.
    pub fn new() -> Self {
        Tally {
            rigs: 0,
            ways: 0,
            no_ways: 0,
            moves: 0,
            ties: 0,
            exhausted: 0,
            most_scenes: 0,
            most_moves: 0,
            most_runs: 0,
            most_rounds: 0,
            no_rooms: [0; SIZES],
            filled: 0,
            hangings: 0,
            most_parts: 0,
            written: 0,
            read_back: 0,
            accepted: 0,
            refused: [0; NUMBERS],
        }
    }

    /// Counts a refusal of a damaged file, and answers whether a file can be refused by that number.
    pub fn count_refusal(&mut self, number: u8) -> bool {
        let mut counts = REFUSALS.iter().zip(self.refused.iter_mut());
        match counts.find(|(refusal, _)| **refusal == number) {
            Some((_, count)) => {
                add_to(count, 1);
                true
            }
            None => false,
        }
    }

    fn print_plans(&self, rt: &impl Print) -> io::Result<()> {
        println!(rt;
            "rigs: {}, the largest of {} scenes",
            self.rigs, self.most_scenes
        )?;
        println!(rt;
            "ways: {}, with {} moves, the longest of {}",
            self.ways, self.moves, self.most_moves
        )?;
        println!(rt; "no ways: {}", self.no_ways)?;
        println!(rt; "most rounds: {}", self.most_rounds)?;
        println!(rt;
            "rigs with several quickest runs: {}, at most {} of them",
            self.ties, self.most_runs
        )?;
        println!(rt;
            "rigs whose quickest runs were gone through one by one: {}",
            self.exhausted
        )
    }

    fn print_no_rooms(&self, rt: &impl Print) -> io::Result<()> {
        for (slots, count) in CAPACITIES.iter().zip(&self.no_rooms) {
            println!(rt; "no room in {slots} node slots: {count}")?;
        }
        println!(rt;
            "rigs planned with as many node slots as needed: {}",
            self.filled
        )?;
        println!(rt; "hangings of their rule: {}", self.hangings)?;
        println!(rt; "most node slots needed: {}", self.most_parts)
    }

    fn print_files(&self, rt: &impl Print) -> io::Result<()> {
        println!(rt; "files written: {}", self.written)?;
        println!(rt; "files read back: {}", self.read_back)?;
        println!(rt; "damaged files read: {}", self.accepted)?;
        for (number, count) in REFUSALS.iter().zip(&self.refused) {
            println!(rt; "damaged files refused by {number}: {count}")?;
        }
        Ok(())
    }

    /// Prints each count on a line.
    pub fn print(&self, rt: &impl Print) -> io::Result<()> {
        self.print_plans(rt)?;
        self.print_no_rooms(rt)?;
        self.print_files(rt)
    }
}
