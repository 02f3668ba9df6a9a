//! Refusals in words.
use crate::fault::ShelfFault;
use std::error::Error;
use std::fmt;

impl ShelfFault {
    /// What was wrong.
    fn words(&self) -> &'static str {
        match self {
            ShelfFault::CountsOff => "a scene has one setting for each device",
            ShelfFault::DeviceHigh => "no device has this number",
            ShelfFault::SettingHigh => "the device has no such setting",
            ShelfFault::PegHigh => "a shelf has the pegs 0 to 7",
            ShelfFault::PegBare => "no chart hangs on the peg",
            ShelfFault::TimeHigh =>
                "an entry is above the greatest time, or the greatest times of two charts add to more",
            ShelfFault::NoRoom => "the shelf has no room left for the chart",
        }
    }
}

impl fmt::Display for ShelfFault {
    fn fmt<W: fmt::Write>(&self, f: &mut fmt::Formatter<W>) -> fmt::Result {
        let number = self.number();
        let words = self.words();
        write!(f, "refused {number}: {words}")
    }
}

impl Error for ShelfFault {}
