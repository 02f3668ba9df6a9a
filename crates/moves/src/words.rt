//! Refusals in words.
use crate::fault::RigFault;
use std::error::Error;
use std::fmt;

impl RigFault {
    /// What was wrong.
    fn words(&self) -> &'static str {
        match self {
            RigFault::CountsOff =>
                "a rig has 1 to 12 devices of 2 to 8 settings, and each list one item per device",
            RigFault::NameByteOff => "the bytes of a name lie between 32 and 126",
            RigFault::SlotsOff => "a rig has 1 to 255 move slots",
            RigFault::NumberHigh => "no slot has this number",
            RigFault::SlotInUse => "the slot is in use: withdraw its move first, or take another",
            RigFault::SlotVacant => "the slot is vacant",
            RigFault::DeviceHigh => "no device has this number",
            RigFault::SettingHigh => "the device has no such setting",
            RigFault::Repeated => "a device or a name stands twice",
            RigFault::LengthsOff =>
                "a move has at most 12 conditions, 1 to 12 effects and at most 8 surcharges of 1 to 3 tests",
            RigFault::TimesOff => "base and extras are at least 1, and together at most 65535",
            RigFault::ConditionUnmet =>
                "a condition of the move does not hold in the present scene",
            RigFault::MaskIll => "a mask admits nothing, or has a bit for no setting",
        }
    }
}

// By hand, as for the other faults: a trait of numbers and words would be written out for each at as much length.
impl fmt::Display for RigFault {
    fn fmt<W: fmt::Write>(&self, f: &mut fmt::Formatter<W>) -> fmt::Result {
        let number = self.number();
        let words = self.words();
        write!(f, "refused {number}: {words}")
    }
}

impl Error for RigFault {}
