//! Orders of the keys of plain lists.
use crate::list::List;

/// Whether the keys between two places ascend.
pub fn is_ascending(list: &List, from: usize, to: usize) -> bool {
    let mut greatest = i32::MIN;
    let mut ascends = true;
    for place in from..to {
        if let Some(x) = list.get(place) {
            ascends = ascends & (greatest <= x.key);
            greatest = greatest.max(x.key);
        }
    }
    ascends
}

/// Whether between two places those with a key below a number come first.
pub fn is_below_first(list: &List, from: usize, to: usize, number: i32) -> bool {
    let mut front = true;
    let mut first = true;
    for place in from..to {
        if let Some(x) = list.get(place) {
            first = first & (front | (x.key >= number));
            front = front & (x.key < number);
        }
    }
    first
}

/// Whether between two places those with a key that isn't above a number come first.
pub fn is_upto_first(list: &List, from: usize, to: usize, number: i32) -> bool {
    let mut front = true;
    let mut first = true;
    for place in from..to {
        if let Some(x) = list.get(place) {
            first = first & (front | (x.key > number));
            front = front & (x.key <= number);
        }
    }
    first
}
