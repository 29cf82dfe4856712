//! The numbers that come of members, and conversions of them.
use crate::numbers::converted;
use crate::tally::Tally;
use sl_base::Scalar;
use sl_intervals::{Interval, convert};

/// How many members an interval may have here.
pub const MEMBERS: usize = 9;

/// What came of members: the least and the greatest number, whether there is one, and whether one faulted.
#[derive(Drop)]
pub struct Seen {
    pub low: i128,
    pub high: i128,
    pub some: bool,
    pub faulted: bool,
}

impl Seen {
    /// Nothing came yet.
    pub fn new() -> Seen {
        Seen {
            low: 1,
            high: 0,
            some: false,
            faulted: false,
        }
    }

    /// One more came, or a fault.
    pub fn add(&mut self, answer: Option<i128>) {
        match answer {
            None => self.faulted = true,
            Some(z) if self.some => {
                self.low = self.low.min(z);
                self.high = self.high.max(z);
            }
            Some(z) => {
                self.low = z;
                self.high = z;
                self.some = true;
            }
        }
    }

    /// Whether an interval is the least that holds these numbers, and empty where there are none.
    pub fn is_hull(&self, i: Interval) -> bool {
        if self.some {
            is_from_to(i, self.low, self.high)
        } else {
            i.low > i.high
        }
    }
}

/// Whether an interval has these two ends.
pub fn is_from_to(i: Interval, low: i128, high: i128) -> bool {
    (i.low == low) & (i.high == high)
}

/// A member by its number from the low end on, if there is one.
pub fn member(i: Interval, number: usize) -> Option<i128> {
    let z = i.low.saturating_add(number as i128);
    if z > i.high { None } else { Some(z) }
}

/// Tries the conversions of an interval to each type.
pub fn try_conversions(a: Interval, tally: &mut Tally) {
    tally.count(is_converted(Scalar::Int, a));
    tally.count(is_converted(Scalar::Bool, a));
    tally.count(is_converted(Scalar::Size, a));
    tally.count(is_converted(Scalar::Diff, a));
}

// Whether a conversion gives the least interval that holds what the members become.
fn is_converted(to: Scalar, a: Interval) -> bool {
    let mut seen = Seen::new();
    for k in 0..MEMBERS {
        if let Some(x) = member(a, k) {
            seen.add(Some(converted(to, x)));
        }
    }
    seen.is_hull(convert(to, a))
}
