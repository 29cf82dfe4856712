//! Tries of the operators of arithmetic.
ghost use Rattle.std.specs.Prelude.{◌≢◌};
ghost use Rattle.sl_base.specs.declared.scalar.Scalar.{Scalar};
ghost use Rattle.sl_intervals.specs.Intervals.{LiesIn};

use crate::near::{greatest, least};
use crate::numbers::{Operator, operated};
use crate::tally::Tally;
use crate::values::{MEMBERS, Seen, is_from_to, member};
use sl_base::Scalar;
use sl_intervals::{Interval, Outcome, Sure, add, div, mul, rem, sub};

/// Tries each operator on two intervals.
pub fn try_operators(ty: Scalar, a: Interval, b: Interval, tally: &mut Tally)
    requires number { ty ≢ Scalar.Bool }
    requires first { LiesIn ty a }
    requires second { LiesIn ty b }
{
    tally.count(is_tight(Operator::Add, ty, a, b, add(ty, a, b)));
    tally.count(is_tight(Operator::Sub, ty, a, b, sub(ty, a, b)));
    tally.count(is_product(ty, a, b, mul(ty, a, b)));
    tally.count(is_tight(Operator::Div, ty, a, b, div(ty, a, b)));
    tally.count(is_remainder(ty, a, b, rem(ty, a, b)));
}

// What comes of the members of two intervals.
fn seen(operator: Operator, ty: Scalar, a: Interval, b: Interval) -> Seen {
    let mut seen = Seen::new();
    for i in 0..MEMBERS {
        for j in 0..MEMBERS {
            if let (Some(x), Some(y)) = (member(a, i), member(b, j)) {
                seen.add(operated(operator, ty, x, y));
            }
        }
    }
    seen
}

// Whether it is told exactly which members fault.
fn is_fault(seen: &Seen, fault: Sure) -> bool {
    match fault {
        Sure::Never => !seen.faulted,
        Sure::May => seen.faulted & seen.some,
        Sure::Always => seen.faulted & !seen.some,
    }
}

// Whether an answer is the least interval of the results, with the fault.
fn is_tight(operator: Operator, ty: Scalar, a: Interval, b: Interval, outcome: Outcome) -> bool {
    let seen = seen(operator, ty, a, b);
    is_fault(&seen, outcome.fault) & seen.is_hull(outcome.value)
}

// Whether an answer tells the fault, and its value lies in the type and holds all numbers that came.
fn is_held(seen: &Seen, ty: Scalar, outcome: Outcome) -> bool {
    let value = outcome.value;
    let empty = value.low > value.high;
    let within = (least(ty) <= value.low) & (value.high <= greatest(ty));
    let wide = (value.low <= seen.low) & (seen.high <= value.high);
    is_fault(seen, outcome.fault) & (empty | within) & (!seen.some | (!empty & wide))
}

// Whether both are single numbers.
fn are_single(a: Interval, b: Interval) -> bool {
    (a.low == a.high) & (b.low == b.high)
}

// Whether an answer holds the products, is exact on single numbers, and else ends at products of ends or at the type's
// end.
fn is_product(ty: Scalar, a: Interval, b: Interval, outcome: Outcome) -> bool {
    let seen = seen(Operator::Mul, ty, a, b);
    let held = is_held(&seen, ty, outcome);
    if are_single(a, b) {
        return held & seen.is_hull(outcome.value);
    }
    if (a.low > a.high) | (b.low > b.high) {
        return held;
    }
    held & is_clamped(ty, a, b, outcome.value)
}

// Whether an interval goes from the least to the greatest product of ends, as far as the type does, where the products
// of a type that wraps round don't go past its greatest number.
fn is_clamped(ty: Scalar, a: Interval, b: Interval, value: Interval) -> bool {
    let last = a.high.saturating_mul(b.high);
    if (least(ty) == 0) & (last > greatest(ty)) {
        return is_from_to(value, 0, greatest(ty));
    }
    let (first, second) = (a.low.saturating_mul(b.low), a.low.saturating_mul(b.high));
    let third = a.high.saturating_mul(b.low);
    let low = first.min(second).min(third).min(last).max(least(ty));
    let high = first.max(second).max(third).max(last).min(greatest(ty));
    is_from_to(value, low, high)
}

// Whether an answer holds the remainders, is exact on single numbers, and keeps sign and bounds.
fn is_remainder(ty: Scalar, a: Interval, b: Interval, outcome: Outcome) -> bool {
    let seen = seen(Operator::Rem, ty, a, b);
    let held = is_held(&seen, ty, outcome) & is_bounded(a, b, outcome.value);
    if are_single(a, b) & seen.some {
        return held & seen.is_hull(outcome.value);
    }
    held
}

// Whether an interval has the sign of the dividends, is no further from 0 than they, and nearer than the furthest
// divisor.
fn is_bounded(a: Interval, b: Interval, value: Interval) -> bool {
    let furthest = b.high.max(0i128.saturating_sub(b.low));
    let low = a.low.min(0).max(1i128.saturating_sub(furthest));
    let high = a.high.max(0).min(furthest.saturating_sub(1));
    (value.low > value.high) | ((low <= value.low) & (value.high <= high))
}
