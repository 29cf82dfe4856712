//! Quotients of the members of intervals.
ghost use Rattle.std.specs.Prelude.{◌≡◌, ◌≢◌, pos, negsuc, neg_ℤ, ◌≤ℤ◌, ◌<ℤ◌, int_div};
ghost use Rattle.std.specs.Int.{int_min, int_max};
ghost use Rattle.sl_base.specs.declared.scalar.Scalar.{Scalar};
ghost use Rattle.sl_syntax.specs.declared.operator.Arithmetic.{Arithmetic};
ghost use Rattle.sl_model.specs.Numbers.{operated, lowest, highest};
ghost use Rattle.sl_intervals.specs.Intervals.{IsEmpty, IsFilled, IsLimited, IsWithin, LiesIn};
ghost use Rattle.sl_intervals.specs.Means.Dividing.{IsQuotients, IsDivided};
ghost use Rattle.sl_intervals.specs.Outcomes.{IsOutcome, IsTight};

use crate::division_faults::division_faults;
use crate::interval::{Interval, between, empty};
use crate::lattice::{join, meet};
use crate::numbers::{greater, greatest, least, lesser};
use crate::outcome::{Outcome, no_outcome};
use sl_base::Scalar;

/// The quotient by a number above 0.
fn quotient(x: i128, y: i128) -> i128
    requires { pos 1 ≤ℤ y }
    ensures { result ≡ int_div x y }
{
    x / y
}

/// The least quotient of the low end.
fn least_quotient(a: Interval, b: Interval) -> i128
    requires low { pos 1 ≤ℤ b.low }
    requires filled { b.low ≤ℤ b.high }
    ensures { result ≡ int_min (int_div a.low b.low) (int_div a.low b.high) }
{
    lesser(quotient(a.low, b.low), quotient(a.low, b.high))
}

/// The greatest quotient of the high end.
fn greatest_quotient(a: Interval, b: Interval) -> i128
    requires low { pos 1 ≤ℤ b.low }
    requires filled { b.low ≤ℤ b.high }
    ensures { result ≡ int_max (int_div a.high b.low) (int_div a.high b.high) }
{
    greater(quotient(a.high, b.low), quotient(a.high, b.high))
}

/// The quotients by divisors above 0.
fn quotients_above(a: Interval, b: Interval) -> Interval
    requires filled { IsFilled a }
    requires above { pos 1 ≤ℤ b.low }
    ensures none { IsEmpty b → IsEmpty result }
    ensures quotients { IsFilled b → IsQuotients a b result }
{
    if b.low > b.high {
        return empty();
    }
    between(least_quotient(a, b), greatest_quotient(a, b))
}

/// The numbers with the other sign.
fn opposite(a: Interval) -> Interval
    requires { IsLimited a }
    ensures low { result.low ≡ neg_ℤ a.high }
    ensures high { result.high ≡ neg_ℤ a.low }
{
    between(-a.high, -a.low)
}

/// The quotients by divisors below 0.
fn quotients_below(a: Interval, b: Interval) -> Interval
    requires first { IsLimited a }
    requires second { negsuc 9223372036854775807 ≤ℤ b.low }
    requires below { b.high ≤ℤ negsuc 0 }
    ensures none { IsEmpty b → IsEmpty result }
    ensures quotients { IsFilled b → IsQuotients a b result }
{
    if b.low > b.high {
        return empty();
    }
    quotients_above(opposite(a), opposite(b))
}

/// The divisors above 0.
fn divisors_above(b: Interval) -> Interval
    ensures low { result.low ≡ int_max b.low (pos 1) }
    ensures high { result.high ≡ b.high }
{
    between(greater(b.low, 1), b.high)
}

/// The divisors below 0, without -1 where only the type's least number is divided.
fn divisors_below(ty: Scalar, a: Interval, b: Interval) -> Interval
    ensures low { result.low ≡ b.low }
    ensures least { a.high ≤ℤ lowest ty → result.high ≡ int_min b.high (negsuc 1) }
    ensures other { lowest ty <ℤ a.high → result.high ≡ int_min b.high (negsuc 0) }
{
    if a.high > least(ty) {
        return between(b.low, lesser(b.high, -1));
    }
    between(b.low, lesser(b.high, -2))
}

/// The quotients by all divisors that don't fault.
fn quotients(ty: Scalar, a: Interval, b: Interval) -> Interval
    requires first { IsLimited a }
    requires second { IsLimited b }
    ensures { IsDivided ty a b result }
{
    join(
        quotients_below(a, divisors_below(ty, a, b)),
        quotients_above(a, divisors_above(b)),
    )
}

/// The quotients of members that the type has.
fn plain_quotients(ty: Scalar, a: Interval, b: Interval) -> Outcome
    requires number { ty ≢ Scalar.Bool }
    requires first { IsWithin ty a }
    requires second { IsWithin ty b }
    requires first_filled { IsFilled a }
    requires second_filled { IsFilled b }
    ensures outcome { IsOutcome (operated Arithmetic.Divide ty) ty a b result }
    ensures ends { IsTight (operated Arithmetic.Divide ty) a b result.value }
{
    Outcome {
        value: meet(quotients(ty, a, b), between(least(ty), greatest(ty))),
        fault: division_faults(ty, a, b),
    }
}

/// The quotients of members.
pub fn div(ty: Scalar, a: Interval, b: Interval) -> Outcome
    requires number { ty ≢ Scalar.Bool }
    requires first { LiesIn ty a }
    requires second { LiesIn ty b }
    ensures outcome { IsOutcome (operated Arithmetic.Divide ty) ty a b result }
    ensures ends { IsTight (operated Arithmetic.Divide ty) a b result.value }
    ensures low { IsFilled a → IsFilled b → pos 0 ≤ℤ a.low → pos 1 ≤ℤ b.low →
        result.value.low ≡ int_div a.low b.high }
    ensures high { IsFilled a → IsFilled b → pos 0 ≤ℤ a.low → pos 1 ≤ℤ b.low →
        result.value.high ≡ int_div a.high b.low }
{
    if a.low > a.high {
        return no_outcome();
    }
    if b.low > b.high {
        return no_outcome();
    }
    plain_quotients(ty, a, b)
}
