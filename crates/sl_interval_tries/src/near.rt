//! Intervals near 0 and near the ends of a type, by number.
ghost use Rattle.std.specs.Prelude.{◌≡◌};
ghost use Rattle.sl_base.specs.declared.scalar.Scalar.{Scalar};
ghost use Rattle.sl_model.specs.Numbers.{lowest, highest};
ghost use Rattle.sl_intervals.specs.Intervals.{IsEmpty, LiesIn};

use sl_base::Scalar;
use sl_intervals::Interval;

/// How far an end may be from 0 or from an end of the type.
const REACH: i128 = 4;

/// How many offsets there are, and how many pairs of them.
const OFFSETS: usize = 9;

const PAIRS: usize = 81;

/// The least number of a type.
pub fn least(ty: Scalar) -> i128
    ensures { result ≡ lowest ty }
{
    match ty {
        Scalar::Int => -2147483648,
        Scalar::Bool => 0,
        Scalar::Size => 0,
        Scalar::Diff => -9223372036854775808,
    }
}

/// The greatest number of a type.
pub fn greatest(ty: Scalar) -> i128
    ensures { result ≡ highest ty }
{
    match ty {
        Scalar::Int => 2147483647,
        Scalar::Bool => 1,
        Scalar::Size => 18446744073709551615,
        Scalar::Diff => 9223372036854775807,
    }
}

/// How many numbers of intervals a type has: near 0, near its greatest number and, where that isn't 0, near its least.
pub fn count_near(ty: Scalar) -> usize {
    if least(ty) == 0 { 162 } else { 243 }
}

/// An interval of a type, by number: none where an end isn't one of the type or the low end is above the high end.
pub fn near(ty: Scalar, number: usize) -> Interval
    ensures { LiesIn ty result }
{
    let anchor = anchor(ty, number / PAIRS);
    let low = at_offset(anchor, number % PAIRS / OFFSETS);
    let high = at_offset(anchor, number % OFFSETS);
    if low < least(ty) {
        return none();
    }
    if high > greatest(ty) {
        return none();
    }
    Interval { low, high }
}

/// Whether an interval is one to try: each that has members and, once, one that hasn't.
pub fn is_new(number: usize, i: Interval) -> bool {
    (number == 1) | ((number > 1) & (i.low <= i.high))
}

// The interval without a member.
fn none() -> Interval
    ensures { IsEmpty result }
{
    Interval { low: 1, high: 0 }
}

// 0, or an end of the type.
fn anchor(ty: Scalar, number: usize) -> i128 {
    match number {
        0 => 0,
        1 => greatest(ty),
        _ => least(ty),
    }
}

// A number near another.
fn at_offset(anchor: i128, offset: usize) -> i128 {
    anchor.saturating_add(offset as i128).saturating_sub(REACH)
}
