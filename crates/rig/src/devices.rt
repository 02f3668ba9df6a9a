use lists::limits::*;
use lists::names::Name;
use lists::short::Short;

/// The devices: how many settings each has, its name, its present setting and its mask.
// Four lists and not one of devices: each is lent whole, as a slice.
#[derive(Clone, Copy)]
pub struct Devices {
    pub(crate) settings: Short<u8, MOST_DEVICES>,
    pub(crate) names: Short<Name, MOST_DEVICES>,
    pub(crate) scene: Short<u8, MOST_DEVICES>,
    pub(crate) masks: Short<u8, MOST_DEVICES>,
}
