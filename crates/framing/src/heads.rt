/// What stands before a surcharge's tests.
#[derive(Clone, Copy)]
pub struct Toll {
    pub count: u8,
    pub extra: u16,
}

/// What stands before a move's lists: its number, how long they are, and its base.
#[derive(Clone, Copy)]
pub struct Head {
    pub number: u8,
    pub conditions: u8,
    pub effects: u8,
    pub surcharges: u8,
    pub base: u16,
}

/// What stands before everything else in a file.
#[derive(Clone, Copy)]
pub struct Header {
    pub version: u8,
    pub devices: u8,
    pub moves: u8,
    pub zero: u8,
    pub first: u16,
    pub second: u16,
    pub third: u16,
    pub total: u16,
}
