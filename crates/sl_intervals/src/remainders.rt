//! Remainders of the members of intervals.
ghost use Rattle.std.specs.Prelude.{◌≡◌, ◌≢◌, pos, neg_ℤ, ◌-ℤ◌, ◌≤ℤ◌, int_rem, true, false};
ghost use Rattle.std.specs.Int.{int_max, int_min};
ghost use Rattle.sl_base.specs.declared.scalar.Scalar.{Scalar};
ghost use Rattle.sl_syntax.specs.declared.operator.Arithmetic.{Arithmetic};
ghost use Rattle.sl_model.specs.Numbers.{operated};
ghost use Rattle.sl_intervals.specs.Intervals.{IsFilled, IsLimited, IsSingle, IsWithin, LiesIn};
ghost use Rattle.sl_intervals.specs.Means.Dividing.{IsSingleDivision};
ghost use Rattle.sl_intervals.specs.Outcomes.{IsOutcome};
ghost use Rattle.sl_intervals.specs.Remainders.{IsRemainders};

use crate::division_faults::division_faults;
use crate::interval::{Interval, between, empty};
use crate::numbers::{greater, lesser};
use crate::outcome::{Outcome, no_outcome};
use sl_base::Scalar;

/// How far the furthest divisor is from 0.
fn furthest(b: Interval) -> i128
    requires { IsLimited b }
    ensures { result ≡ int_max (neg_ℤ b.low) b.high }
{
    greater(-b.low, b.high)
}

/// The least that a remainder can be, below a number.
fn least_remainder(a: Interval, limit: i128) -> i128
    requires low { pos 1 ≤ℤ limit }
    requires high { limit ≤ℤ pos 18446744073709551615 }
    ensures zero { pos 0 ≤ℤ a.low → result ≡ pos 0 }
    ensures below { a.low ≤ℤ pos 0 → result ≡ int_max a.low (pos 1 -ℤ limit) }
{
    if a.low >= 0 {
        return 0;
    }
    greater(a.low, 1 - limit)
}

/// The greatest that a remainder can be, below a number.
fn greatest_remainder(a: Interval, limit: i128) -> i128
    requires low { pos 1 ≤ℤ limit }
    requires high { limit ≤ℤ pos 18446744073709551615 }
    ensures zero { a.high ≤ℤ pos 0 → result ≡ pos 0 }
    ensures above { pos 0 ≤ℤ a.high → result ≡ int_min a.high (limit -ℤ pos 1) }
{
    if a.high <= 0 {
        return 0;
    }
    lesser(a.high, limit - 1)
}

/// What holds all remainders, and none where 0 is the only divisor.
fn rough_remainders(a: Interval, b: Interval) -> Interval
    requires first { IsLimited a }
    requires second { IsLimited b }
    ensures { IsRemainders a b result }
{
    let limit = furthest(b);
    if limit == 0 {
        return empty();
    }
    between(least_remainder(a, limit), greatest_remainder(a, limit))
}

/// The remainder of two numbers.
fn remainder(a: Interval, b: Interval) -> i128
    requires first { IsLimited a }
    requires second { b.low ≢ pos 0 }
    ensures { result ≡ int_rem a.low b.low }
{
    a.low % b.low
}

/// Whether both are single numbers, and the second isn't 0.
fn is_single_division(a: Interval, b: Interval) -> bool
    ensures yes { result ≡ true → IsSingleDivision a b }
    ensures no { result ≡ false → (IsSingleDivision a b → ⊥) }
{
    (a.low == a.high) & (b.low == b.high) & (b.low != 0)
}

/// What holds the remainders of members: of single numbers their remainder.
fn remainders(a: Interval, b: Interval) -> Interval
    requires first { IsLimited a }
    requires second { IsLimited b }
    ensures remainders { IsRemainders a b result }
    ensures exact { IsSingleDivision a b → IsSingle result (int_rem a.low b.low) }
{
    if is_single_division(a, b) {
        let rest = remainder(a, b);
        return between(rest, rest);
    }
    rough_remainders(a, b)
}

/// The remainders of members that the type has.
fn plain_remainders(ty: Scalar, a: Interval, b: Interval) -> Outcome
    requires number { ty ≢ Scalar.Bool }
    requires first { IsWithin ty a }
    requires second { IsWithin ty b }
    requires first_filled { IsFilled a }
    requires second_filled { IsFilled b }
    ensures outcome { IsOutcome (operated Arithmetic.Remainder ty) ty a b result }
    ensures ends { IsRemainders a b result.value }
{
    Outcome {
        value: remainders(a, b),
        fault: division_faults(ty, a, b),
    }
}

/// The remainders of members.
pub fn rem(ty: Scalar, a: Interval, b: Interval) -> Outcome
    requires number { ty ≢ Scalar.Bool }
    requires first { LiesIn ty a }
    requires second { LiesIn ty b }
    ensures outcome { IsOutcome (operated Arithmetic.Remainder ty) ty a b result }
    ensures ends { IsRemainders a b result.value }
{
    if a.low > a.high {
        return no_outcome();
    }
    if b.low > b.high {
        return no_outcome();
    }
    plain_remainders(ty, a, b)
}
