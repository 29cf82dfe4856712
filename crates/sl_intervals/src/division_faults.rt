//! Where divisions and remainders of members fault.
ghost use Rattle.std.specs.Prelude.{◌≡◌, ◌≢◌, pos, negsuc, ◌≤ℤ◌, ◌<ℤ◌};
ghost use Rattle.sl_base.specs.declared.scalar.Scalar.{Scalar};
ghost use Rattle.sl_model.specs.Numbers.{lowest};
ghost use Rattle.sl_intervals.specs.Intervals.{IsFilled, IsWithin};
ghost use Rattle.sl_intervals.specs.Means.Dividing.{IsDivisionVerdict};

use crate::interval::Interval;
use crate::numbers::least;
use crate::sure::Sure;
use sl_base::Scalar;

/// Whether a division faults where 0 is one of the divisors.
fn faults_at_zero(ty: Scalar, a: Interval, b: Interval) -> Sure
    requires low { b.low ≤ℤ pos 0 }
    requires high { pos 0 ≤ℤ b.high }
    ensures above { pos 1 ≤ℤ b.high → result ≡ Sure.May }
    ensures below { b.low <ℤ negsuc 0 → result ≡ Sure.May }
    ensures only_zero { pos 0 ≤ℤ b.low → b.high ≤ℤ pos 0 → result ≡ Sure.Always }
    ensures only_least { b.high ≤ℤ pos 0 → negsuc 0 ≤ℤ b.low → a.high ≤ℤ lowest ty → result ≡ Sure.Always }
    ensures other { b.low ≤ℤ negsuc 0 → lowest ty <ℤ a.high → result ≡ Sure.May }
{
    if b.high > 0 {
        return Sure::May;
    }
    if b.low < -1 {
        return Sure::May;
    }
    if b.low == 0 {
        return Sure::Always;
    }
    if a.high > least(ty) {
        return Sure::May;
    }
    Sure::Always
}

/// Whether a division faults where all divisors are below 0.
fn faults_below_zero(ty: Scalar, a: Interval, b: Interval) -> Sure
    requires filled { b.low ≤ℤ b.high }
    requires high { b.high ≤ℤ negsuc 0 }
    requires dividends { lowest ty ≤ℤ a.low }
    ensures far { b.high <ℤ negsuc 0 → result ≡ Sure.Never }
    ensures no_least { lowest ty <ℤ a.low → result ≡ Sure.Never }
    ensures divisors { a.low ≤ℤ lowest ty → negsuc 0 ≤ℤ b.high → b.low <ℤ negsuc 0 → result ≡ Sure.May }
    ensures others { a.low ≤ℤ lowest ty → negsuc 0 ≤ℤ b.high → lowest ty <ℤ a.high → result ≡ Sure.May }
    ensures only_least { negsuc 0 ≤ℤ b.low → a.high ≤ℤ lowest ty → a.low ≤ℤ a.high → result ≡ Sure.Always }
{
    if b.high < -1 {
        return Sure::Never;
    }
    let first = least(ty);
    if a.low > first {
        return Sure::Never;
    }
    if b.low < -1 {
        return Sure::May;
    }
    if a.high > first {
        return Sure::May;
    }
    Sure::Always
}

/// Whether divisions of members by members fault: by 0, or of the type's least number by -1.
pub fn division_faults(ty: Scalar, a: Interval, b: Interval) -> Sure
    requires number { ty ≢ Scalar.Bool }
    requires first { IsWithin ty a }
    requires second { IsWithin ty b }
    requires first_filled { IsFilled a }
    requires second_filled { IsFilled b }
    ensures { IsDivisionVerdict ty a b result }
{
    if b.low > 0 {
        return Sure::Never;
    }
    if b.high < 0 {
        return faults_below_zero(ty, a, b);
    }
    faults_at_zero(ty, a, b)
}
