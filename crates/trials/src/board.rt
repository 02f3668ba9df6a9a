//! Pegs with charts that are plain lists of times, and the fill of a diagram shelf at each hanging.
use crate::pieces::Parts;
use crate::scenes::{setting_at, share};
use moves::pair::Pair;
use std::alloc::{AllocError, Global};

/// The entries of a dial.
pub type Entries = [Option<u64>; 8];

/// A chart on a peg and the numbers of its parts; a bare peg has none of either.
#[derive(Drop)]
struct Hung {
    chart: Vec<Option<u64>>,
    parts: Vec<usize>,
}

/// How many different parts a hanging needed, in which round, and while which move was worked on, if one was.
#[derive(Clone, Copy)]
pub struct Fill {
    pub parts: usize,
    pub round: u64,
    pub number: Option<u8>,
}

/// The pegs of planning, and what was hung so far.
#[derive(Drop)]
pub struct Board<'a> {
    alloc: Global,
    settings: &'a [u8],
    scenes: usize,
    pegs: Vec<Hung>,
    parts: Parts,
    pub round: u64,
    pub number: Option<u8>,
    pub fills: Vec<Fill>,
}

/// Marks the parts.
fn mark(marks: &mut Vec<bool>, parts: &[usize]) {
    for part in parts {
        if let Some(mark) = marks.get_mut(*part) {
            *mark = true;
        }
    }
}

impl<'a> Board<'a> {
    /// A board of five bare pegs.
    pub fn bare(alloc: Global, settings: &'a [u8], scenes: usize) -> Result<Self, AllocError> {
        let mut pegs = Vec::new(alloc);
        for _ in 0..5 {
            pegs.push(Hung {
                chart: Vec::new(alloc),
                parts: Vec::new(alloc),
            })?;
        }
        Ok(Board {
            alloc,
            settings,
            scenes,
            pegs,
            parts: Parts::new(alloc),
            round: 0,
            number: None,
            fills: Vec::new(alloc),
        })
    }

    /// The chart of a peg.
    pub fn chart(&self, peg: usize) -> &[Option<u64>] {
        match self.pegs.get(peg) {
            Some(hung) => hung.chart.as_slice(),
            None => &[],
        }
    }

    /// How many different parts there are among these and those on the pegs.
    fn fill(&self, parts: &[usize]) -> Result<usize, AllocError> {
        let mut marks = vec![in self.alloc; false; self.parts.len()]?;
        mark(&mut marks, parts);
        for hung in &self.pegs {
            mark(&mut marks, hung.parts.as_slice());
        }
        Ok(marks.iter().filter(|mark| **mark).count())
    }

    /// Hangs a chart, and notes the fill.
    fn hang(&mut self, target: usize, chart: Vec<Option<u64>>) -> Result<(), AllocError> {
        let parts = self.parts.of_chart(self.settings, chart.as_slice())?;
        let fill = Fill {
            parts: self.fill(parts.as_slice())?,
            round: self.round,
            number: self.number,
        };
        self.fills.push(fill)?;
        if let Some(peg) = self.pegs.get_mut(target) {
            *peg = Hung { chart, parts };
        }
        Ok(())
    }

    /// Hangs the chart that gives a scene the entry of the device's setting.
    pub fn dial(
        &mut self,
        target: usize,
        device: usize,
        entries: &Entries,
    ) -> Result<(), AllocError> {
        let mut chart = Vec::new(self.alloc);
        for place in 0..self.scenes {
            let setting = setting_at(self.settings, place, device);
            chart.push(entries.get(setting).copied().flatten())?;
        }
        self.hang(target, chart)
    }

    /// Hangs the lesser of two charts.
    pub fn cheaper(&mut self, target: usize, left: usize, right: usize) -> Result<(), AllocError> {
        let mut chart = Vec::new(self.alloc);
        for (left, right) in self.chart(left).iter().zip(self.chart(right)) {
            chart.push(match (*left, *right) {
                (Some(left), Some(right)) => Some(left.min(right)),
                (Some(left), None) => Some(left),
                (None, right) => right,
            })?;
        }
        self.hang(target, chart)
    }

    /// Hangs the sum of two charts.
    pub fn sum(&mut self, target: usize, left: usize, right: usize) -> Result<(), AllocError> {
        let mut chart = Vec::new(self.alloc);
        for (left, right) in self.chart(left).iter().zip(self.chart(right)) {
            chart.push(match (*left, *right) {
                (Some(left), Some(right)) => left.checked_add(right),
                _ => None,
            })?;
        }
        self.hang(target, chart)
    }

    /// Hangs on a peg what it gives a scene once the pair's device is at the pair's setting.
    pub fn put(&mut self, target: usize, pair: &Pair) -> Result<(), AllocError> {
        let device = usize::from(pair.device);
        let there = share(self.settings, device, usize::from(pair.setting));
        let mut chart = Vec::new(self.alloc);
        for place in 0..self.scenes {
            let here = share(
                self.settings,
                device,
                setting_at(self.settings, place, device),
            );
            let after = place.saturating_sub(here).saturating_add(there);
            chart.push(self.chart(target).get(after).copied().flatten())?;
        }
        self.hang(target, chart)
    }
}
