ghost use Rattle.std.specs.Prelude.{◌≡◌};
ghost use Rattle.shelf.specs.Faults.{number as the_number};

/// Why a shelf refuses a call.
#[derive(Clone, Copy, PartialEq, Eq, Debug)]
pub enum ShelfFault {
    /// A scene without one setting for each device.
    CountsOff = 1,
    /// A device number that is too high.
    DeviceHigh = 7,
    /// A setting that is too high for its device.
    SettingHigh = 8,
    /// A peg number that is too high.
    PegHigh = 14,
    /// A peg to be read that is bare.
    PegBare = 15,
    /// A dial entry above the greatest time, or a sum whose two charts' greatest times add to more.
    TimeHigh = 16,
    /// A fill above the capacity.
    NoRoom = 18,
}

impl ShelfFault {
    /// The number of the refusal.
    pub fn number(self) -> u8
        ensures value { result ≡ the_number self }
    {
        self as u8
    }
}
