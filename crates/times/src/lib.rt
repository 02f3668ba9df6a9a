//! The entries of charts, each a time or never, and what is made of two of them.
#![tactic(auto)]

ghost use Rattle.std.specs.Prelude.{◌≡◌, false};
ghost use Rattle.model.specs.Charts as charts;
ghost use Rattle.model.specs.Lists.{some};

use lists::limits::MOST_TIME;

/// The lesser of two entries, any time being less than never.
pub fn lesser(a: Option<u64>, b: Option<u64>) -> Option<u64>
    ensures value { result ≡ charts.lesser a b }
{
    match (a, b) {
        (Some(x), Some(y)) => Some(x.min(y)),
        (a, b) => a.or(b),
    }
}

/// The greater of two times, or the one that there is.
pub fn greater(a: Option<u64>, b: Option<u64>) -> Option<u64>
    ensures value { result ≡ charts.greater a b }
{
    a.max(b)
}

/// The sum of two entries, never if either is never.
pub fn plus(a: Option<u64>, b: Option<u64>) -> Option<u64>
    requires timely { charts.late (charts.plus a b) ≡ false }
    ensures value { result ≡ charts.plus a b }
{
    Some(a? + b?)
}

/// Whether a time is above the greatest that a chart may have.
pub fn is_late(time: Option<u64>) -> bool
    ensures value { result ≡ charts.late time }
{
    time.is_some_and(|t| t > MOST_TIME)
}

/// Whether two legal times add to more than the greatest that a chart may have.
pub fn sum_is_late(a: Option<u64>, b: Option<u64>) -> bool
    requires timely { (charts.late a ≡ false) × (charts.late b ≡ false) }
    ensures value { result ≡ charts.late (charts.plus a b) }
{
    a.zip(b).is_some_and(|(x, y)| x + y > MOST_TIME)
}

/// Whether some entry is above the greatest time that a chart may have.
pub fn some_late(entries: &[Option<u64>]) -> bool
    ensures value { result ≡ some charts.late entries.now }
{
    entries.iter().any(|time| is_late(*time))
}
