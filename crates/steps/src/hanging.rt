use lists::limits::MOST_SETTINGS;

/// A call that hangs a chart on a shelf, with all that it is given.
#[derive(Clone, Copy, PartialEq, Eq, Debug)]
pub enum Hanging {
    /// The chart that gives a scene the entry of the device's setting.
    Dial {
        target: u8,
        device: u8,
        entries: [Option<u64>; MOST_SETTINGS],
    },
    /// The lesser of two charts at each scene.
    Cheaper {
        target: u8,
        left: u8,
        right: u8,
    },
    /// The sum of two charts at each scene.
    Sum {
        target: u8,
        left: u8,
        right: u8,
    },
    /// What the source gives a scene once the device is at the setting.
    Put {
        target: u8,
        source: u8,
        device: u8,
        setting: u8,
    },
}
