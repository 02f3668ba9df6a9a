use lists::limits::MOST_DEVICES;
use lists::short::Short;

/// A place on the walk along a plan: a scene, and the time from it to a wanted one.
#[derive(Clone, Copy)]
pub struct Point {
    pub scene: Short<u8, MOST_DEVICES>,
    pub left: u64,
}

/// A move's number, and the place that it leads to.
#[derive(Clone, Copy)]
pub struct Stride {
    pub number: u8,
    pub end: Point,
}
