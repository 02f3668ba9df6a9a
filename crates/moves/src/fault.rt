ghost use Rattle.std.specs.Prelude.{◌≡◌};
ghost use Rattle.moves.specs.Faults.{number as the_number};

/// Why a call on a rig is sent back.
#[derive(Clone, Copy, PartialEq, Eq, Debug)]
pub enum RigFault {
    /// Device or settings count outside its limits, or a list without one item per device.
    CountsOff = 1,
    /// A name byte that is not printable.
    NameByteOff = 2,
    /// Too few or too many move slots.
    SlotsOff = 3,
    /// A move number not below the table length.
    NumberHigh = 4,
    /// Add on a slot in use.
    SlotInUse = 5,
    /// Retime, withdraw or perform on a vacant slot.
    SlotVacant = 6,
    /// A device number that is too high.
    DeviceHigh = 7,
    /// A setting too high for its device.
    SettingHigh = 8,
    /// A repeated device or name.
    Repeated = 9,
    /// Conditions, effects, surcharges or tests outside their limits.
    LengthsOff = 10,
    /// Base 0, extra 0, or base and extras above the limit.
    TimesOff = 11,
    /// Perform with a condition that does not hold.
    ConditionUnmet = 12,
    /// A mask that admits nothing, or has a bit for no setting.
    MaskIll = 13,
}

impl RigFault {
    /// The number under which the refusal is known.
    pub fn number(&self) -> u8
        ensures { result ≡ the_number self.now }
    {
        *self as u8
    }
}
