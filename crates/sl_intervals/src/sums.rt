//! Sums and differences of the members of intervals.
ghost use Rattle.std.specs.Prelude.{◌≡◌, ◌≢◌, ◌⊎◌, pos, negsuc, ◌+ℤ◌, ◌-ℤ◌, ◌≤ℤ◌};
ghost use Rattle.sl_base.specs.declared.scalar.Scalar.{Scalar};
ghost use Rattle.sl_syntax.specs.declared.operator.Arithmetic.{Arithmetic};
ghost use Rattle.sl_model.specs.Numbers.{operated};
ghost use Rattle.sl_intervals.specs.Intervals.{IsLimited, LiesIn};
ghost use Rattle.sl_intervals.specs.Outcomes.{IsOutcome, IsTight};

use crate::interval::{Interval, between};
use crate::outcome::{Outcome, no_outcome};
use crate::settling::results;
use sl_base::Scalar;

/// The exact sums.
fn exact_sums(a: Interval, b: Interval) -> Interval
    requires first { IsLimited a }
    requires second { IsLimited b }
    ensures low { result.low ≡ (a.low +ℤ b.low) }
    ensures high { result.high ≡ (a.high +ℤ b.high) }
{
    between(a.low + b.low, a.high + b.high)
}

/// The exact differences.
fn exact_differences(a: Interval, b: Interval) -> Interval
    requires first { IsLimited a }
    requires second { IsLimited b }
    ensures low { result.low ≡ (a.low -ℤ b.high) }
    ensures high { result.high ≡ (a.high -ℤ b.low) }
{
    between(a.low - b.high, a.high - b.low)
}

/// The sums of members.
pub fn add(ty: Scalar, a: Interval, b: Interval) -> Outcome
    requires number { ty ≢ Scalar.Bool }
    requires first { LiesIn ty a }
    requires second { LiesIn ty b }
    ensures outcome { IsOutcome (operated Arithmetic.Add ty) ty a b result }
    ensures ends { IsTight (operated Arithmetic.Add ty) a b result.value }
{
    if a.low > a.high {
        return no_outcome();
    }
    if b.low > b.high {
        return no_outcome();
    }
    results(ty, exact_sums(a, b))
}

/// The differences of members.
pub fn sub(ty: Scalar, a: Interval, b: Interval) -> Outcome
    requires number { ty ≢ Scalar.Bool }
    requires first { LiesIn ty a }
    requires second { LiesIn ty b }
    ensures outcome { IsOutcome (operated Arithmetic.Subtract ty) ty a b result }
    ensures ends { IsTight (operated Arithmetic.Subtract ty) a b result.value }
{
    if a.low > a.high {
        return no_outcome();
    }
    if b.low > b.high {
        return no_outcome();
    }
    results(ty, exact_differences(a, b))
}
