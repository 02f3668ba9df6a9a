ghost use Rattle.std.specs.Prelude.{◌≡◌, false};
ghost use Rattle.model.specs.Charts.{Time, late, lesser as lesser_of, plus as plus_of};

use times::{lesser, plus};

/// A way to join two entries into one.
pub trait Join {
    // what two entries give
    ghost joins: { Time → Time → Time };

    fn join(a: Option<u64>, b: Option<u64>) -> Option<u64>
        requires timely { late (joins a b) ≡ false }
        ensures value { result ≡ joins a b };
}

/// The lesser of two entries, any time being less than never.
#[derive(Clone, Copy)]
pub struct Lesser;

impl Join for Lesser {
    ghost joins = { lesser_of };

    fn join(a: Option<u64>, b: Option<u64>) -> Option<u64> {
        lesser(a, b)
    }
}

/// The sum of two entries, never if either is never.
#[derive(Clone, Copy)]
pub struct Sum;

impl Join for Sum {
    ghost joins = { plus_of };

    fn join(a: Option<u64>, b: Option<u64>) -> Option<u64> {
        plus(a, b)
    }
}
