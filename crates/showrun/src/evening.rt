//! The worked evening: a lamp and a sky, and four moves that darken them.
use drafts::draft::{Charge, Draft};
use lists::names::Name;
use moves::pair::Pair;

/// The lamp has two settings, the sky three.
pub(crate) const SETTINGS: [u8; 2] = [2, 3];

pub(crate) const NAMES: [Name; 2] = [*b"LAMP    ", *b"SKY     "];

/// The lamp is on, and it is day.
pub(crate) const SCENE: [u8; 2] = [ON, DAY];

pub(crate) const SLOTS: usize = 4;

const LAMP: u8 = 0;

const OFF: u8 = 0;

const ON: u8 = 1;

const SKY: u8 = 1;

const DAY: u8 = 0;

const DUSK: u8 = 1;

const DARK: u8 = 2;

const LAMP_ON: Pair = Pair {
    device: LAMP,
    setting: ON,
};

const LAMP_OFF: Pair = Pair {
    device: LAMP,
    setting: OFF,
};

const SKY_DAY: Pair = Pair {
    device: SKY,
    setting: DAY,
};

const SKY_DUSK: Pair = Pair {
    device: SKY,
    setting: DUSK,
};

const SKY_DARK: Pair = Pair {
    device: SKY,
    setting: DARK,
};

/// The lamp goes off; it becomes dusk, then dark, or dark at once, and each takes longer while the lamp is on.
pub(crate) const MOVES: [Draft<'static>; 4] = [
    Draft {
        conditions: &[LAMP_ON],
        effects: &[LAMP_OFF],
        base: 15,
        surcharges: &[],
    },
    Draft {
        conditions: &[SKY_DAY],
        effects: &[SKY_DUSK],
        base: 20,
        surcharges: &[Charge {
            tests: &[LAMP_ON],
            extra: 30,
        }],
    },
    Draft {
        conditions: &[SKY_DUSK],
        effects: &[SKY_DARK],
        base: 20,
        surcharges: &[Charge {
            tests: &[LAMP_ON],
            extra: 40,
        }],
    },
    Draft {
        conditions: &[SKY_DAY],
        effects: &[SKY_DARK],
        base: 40,
        surcharges: &[Charge {
            tests: &[LAMP_ON],
            extra: 50,
        }],
    },
];

/// An extra of one tenth while the lamp is on.
pub(crate) const ONE_MORE: [Charge<'static>; 1] = [Charge {
    tests: &[LAMP_ON],
    extra: 1,
}];
