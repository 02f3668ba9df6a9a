//! The parts of charts that are plain lists of times, told apart by comparing them whole.
use crate::scenes::{devices_from, scene_count};
use std::alloc::{AllocError, Global};
use std::collections::BTreeMap;

/// A number of fixed devices, and what is then left of a chart, less its least time.
type Part = (usize, Vec<Option<u64>>);

/// The parts that were met, each with a number of its own.
#[derive(Drop)]
pub struct Parts {
    alloc: Global,
    numbers: BTreeMap<Part, usize>,
}

/// The least of the times, or 0 if there is none.
fn least_of(times: &[Option<u64>]) -> u64 {
    times.iter().copied().flatten().min().unwrap_or(0)
}

impl Parts {
    /// No parts yet.
    pub fn new(alloc: Global) -> Self {
        Parts {
            alloc,
            numbers: BTreeMap::new(alloc),
        }
    }

    /// How many different parts were met.
    pub fn len(&self) -> usize {
        self.numbers.len()
    }

    /// The times, less the least of them.
    fn lowered(&self, times: &[Option<u64>]) -> Result<Vec<Option<u64>>, AllocError> {
        let least = least_of(times);
        let mut lowered = Vec::new(self.alloc);
        for time in times {
            lowered.push(time.map(|time| time.saturating_sub(least)))?;
        }
        Ok(lowered)
    }

    /// The number of what is left once so many devices are fixed.
    fn number_of(&mut self, fixed: usize, left: &[Option<u64>]) -> Result<usize, AllocError> {
        let part = self.lowered(left)?;
        let next = self.numbers.len();
        let number = self.numbers.entry((fixed, part))?.or_insert(next);
        Ok(*number)
    }

    /// Adds the numbers of a chart's parts with so many devices fixed. They stand in the chart one after another.
    fn add_level(
        &mut self,
        settings: &[u8],
        chart: &[Option<u64>],
        fixed: usize,
        numbers: &mut Vec<usize>,
    ) -> Result<(), AllocError> {
        let size = scene_count(devices_from(settings, fixed));
        for left in chart.chunks(size.max(1)) {
            numbers.push(self.number_of(fixed, left)?)?;
        }
        Ok(())
    }

    /// The numbers of a chart's parts, some of them more than once.
    pub fn of_chart(
        &mut self,
        settings: &[u8],
        chart: &[Option<u64>],
    ) -> Result<Vec<usize>, AllocError> {
        let mut numbers = Vec::new(self.alloc);
        for fixed in 0..settings.len() {
            self.add_level(settings, chart, fixed, &mut numbers)?;
        }
        Ok(numbers)
    }
}
