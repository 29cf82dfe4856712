//! Tries of comparisons, joins and meets.
use crate::tally::Tally;
use crate::values::{MEMBERS, Seen, member};
use sl_intervals::{Interval, Sure, join, less, meet};

/// Tries the comparison, the join and the meet of two intervals.
pub fn try_sets(a: Interval, b: Interval, tally: &mut Tally) {
    tally.count(is_less(a, b));
    tally.count(is_joined(a, b));
    tally.count(is_met(a, b));
}

// Whether the comparison holds exactly what comparing members gives.
fn is_less(a: Interval, b: Interval) -> bool {
    let mut seen = Seen::new();
    for i in 0..MEMBERS {
        for j in 0..MEMBERS {
            if let (Some(x), Some(y)) = (member(a, i), member(b, j)) {
                seen.add(Some(i128::from(x < y)));
            }
        }
    }
    let outcome = less(a, b);
    seen.is_hull(outcome.value) & matches!(outcome.fault, Sure::Never)
}

// Whether the join is the least interval that holds all members.
fn is_joined(a: Interval, b: Interval) -> bool {
    let mut seen = Seen::new();
    for k in 0..MEMBERS {
        if let Some(x) = member(a, k) {
            seen.add(Some(x));
        }
        if let Some(y) = member(b, k) {
            seen.add(Some(y));
        }
    }
    seen.is_hull(join(a, b))
}

// Whether the meet holds exactly the members of both.
fn is_met(a: Interval, b: Interval) -> bool {
    let mut seen = Seen::new();
    for k in 0..MEMBERS {
        if let Some(x) = member(a, k) {
            if (b.low <= x) & (x <= b.high) {
                seen.add(Some(x));
            }
        }
    }
    seen.is_hull(meet(a, b))
}
