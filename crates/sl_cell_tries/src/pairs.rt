//! Elements, and what is known of one.
use crate::list::Pair;
use sl_intervals::Interval;

/// Whether an interval is a single number.
pub fn is_single(i: Interval) -> bool {
    i.low == i.high
}

/// Whether a key and a value hold those of an element, and nothing else where it has to be known.
pub fn is_element(known: bool, item: (Interval, Interval), x: Pair) -> bool {
    is_number(known, item.0, x.key) & is_number(known, item.1, x.value)
}

// Whether an interval holds a number, and nothing else where it has to be known.
fn is_number(known: bool, i: Interval, number: i32) -> bool {
    let z = i128::from(number);
    (i.low <= z) & (z <= i.high) & (!known | is_single(i))
}
