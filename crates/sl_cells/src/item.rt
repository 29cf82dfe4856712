//! One element.
ghost use Rattle.std.specs.Prelude.{◌≡◌, pos};

use sl_intervals::Interval;

/// What is known of one element: its key and its value.
#[derive(Clone, Copy)]
pub struct Item {
    pub key: Interval,
    pub value: Interval,
}

impl Default for Item {
    /// What is known of no element.
    fn default() -> Item {
        Item {
            key: nothing(),
            value: nothing(),
        }
    }
}

/// No numbers.
pub fn nothing() -> Interval
    ensures low { result.low ≡ pos 1 }
    ensures high { result.high ≡ pos 0 }
{
    Interval { low: 1, high: 0 }
}
