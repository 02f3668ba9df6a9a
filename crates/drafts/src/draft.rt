use moves::pair::*;

/// A surcharge as it is handed in: any number of tests.
#[derive(Clone, Copy)]
pub struct Charge<'a> {
    pub tests: &'a [Pair],
    pub extra: u16,
}

/// A move as it is handed in: lists of any length, lent and judged as a whole.
#[derive(Clone, Copy)]
pub struct Draft<'a> {
    pub conditions: &'a [Pair],
    pub effects: &'a [Pair],
    pub base: u16,
    pub surcharges: &'a [Charge<'a>],
}
