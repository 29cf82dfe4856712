//! Tries of widenings.
ghost use Rattle.sl_base.specs.declared.scalar.Scalar.{Scalar};
ghost use Rattle.sl_intervals.specs.Intervals.{LiesIn};

use crate::near::{greatest, least};
use crate::tally::Tally;
use crate::values::is_from_to;
use sl_base::Scalar;
use sl_intervals::{Interval, widen};

/// Constants to stop at, which aren't in order and not all of each type.
const CONSTANTS: [i128; 6] = [3, -2, 18446744073709551613, 0, -2147483646, 2147483645];

/// Tries the widening of one interval by another.
pub fn try_widening(ty: Scalar, old: Interval, new: Interval, tally: &mut Tally)
    requires old { LiesIn ty old }
    requires new { LiesIn ty new }
{
    let widened = widen(old, new, &CONSTANTS, ty);
    if old.low > old.high {
        tally.count(is_from_to(widened, new.low, new.high));
    } else if new.low > new.high {
        tally.count(is_from_to(widened, old.low, old.high));
    } else {
        let (low, high) = (low_end(ty, old, new), high_end(ty, old, new));
        tally.count(is_from_to(widened, low, high));
    }
}

// Where the low end is due: the greatest constant of the type that isn't above it, where it fell.
fn low_end(ty: Scalar, old: Interval, new: Interval) -> i128 {
    if old.low <= new.low {
        return old.low;
    }
    let mut end = least(ty);
    for constant in CONSTANTS {
        if constant <= new.low {
            end = end.max(constant);
        }
    }
    end
}

// Where the high end is due: the least constant of the type that isn't below it, where it grew.
fn high_end(ty: Scalar, old: Interval, new: Interval) -> i128 {
    if new.high <= old.high {
        return old.high;
    }
    let mut end = greatest(ty);
    for constant in CONSTANTS {
        if new.high <= constant {
            end = end.min(constant);
        }
    }
    end
}
