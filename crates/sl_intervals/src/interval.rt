//! Intervals of whole numbers.
ghost use Rattle.std.specs.Prelude.{◌≡◌, pos};

/// The numbers from `low` to `high`, none where `low` is above `high`.
#[derive(Clone, Copy)]
pub struct Interval {
    pub low: i128,
    pub high: i128,
}

/// The interval without a member.
pub fn empty() -> Interval
    ensures low { result.low ≡ pos 1 }
    ensures high { result.high ≡ pos 0 }
{
    Interval { low: 1, high: 0 }
}

/// The numbers from one to another.
pub fn between(low: i128, high: i128) -> Interval
    ensures low { result.low ≡ low }
    ensures high { result.high ≡ high }
{
    Interval { low, high }
}
