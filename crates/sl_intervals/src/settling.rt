//! Results in a row, settled in a type.
ghost use Rattle.std.specs.Prelude.{◌≡◌, ◌≢◌, ◌≤ℤ◌, ◌<ℤ◌};
ghost use Rattle.std.specs.Int.{int_min, int_max};
ghost use Rattle.sl_base.specs.declared.scalar.Scalar.{Scalar};
ghost use Rattle.sl_model.specs.Numbers.{lowest, highest};
ghost use Rattle.sl_intervals.specs.Intervals.{IsFilled, IsWithin};
ghost use Rattle.sl_intervals.specs.Outcomes.{IsSettled};

use crate::conversion::converted_range;
use crate::interval::{Interval, between};
use crate::lattice::meet;
use crate::numbers::{greatest, least};
use crate::outcome::Outcome;
use crate::sure::Sure;
use sl_base::Scalar;

/// Whether no, some or all of these numbers are outside the type.
fn outside(ty: Scalar, s: Interval) -> Sure
    requires { IsFilled s }
    ensures never { IsWithin ty s → result ≡ Sure.Never }
    ensures under { s.high <ℤ lowest ty → result ≡ Sure.Always }
    ensures over { highest ty <ℤ s.low → result ≡ Sure.Always }
    ensures low { s.low <ℤ lowest ty → lowest ty ≤ℤ s.high → result ≡ Sure.May }
    ensures high { s.low ≤ℤ highest ty → highest ty <ℤ s.high → result ≡ Sure.May }
{
    let first = least(ty);
    let last = greatest(ty);
    if s.high < first {
        return Sure::Always;
    }
    if last < s.low {
        return Sure::Always;
    }
    if s.low < first {
        return Sure::May;
    }
    if last < s.high {
        return Sure::May;
    }
    Sure::Never
}

/// Those of these numbers that the type has; of a signed type each other one is a fault.
pub fn clamped(ty: Scalar, s: Interval) -> Outcome
    requires { IsFilled s }
    ensures settled { ty ≢ Scalar.Size → IsSettled ty s result }
    ensures low { result.value.low ≡ int_max s.low (lowest ty) }
    ensures high { result.value.high ≡ int_min s.high (highest ty) }
    ensures fine { IsWithin ty s → result.fault ≡ Sure.Never }
{
    Outcome {
        value: meet(s, between(least(ty), greatest(ty))),
        fault: outside(ty, s),
    }
}

/// These numbers as results of `std::size_t`, which wrap round.
fn size_results(s: Interval) -> Outcome
    requires { IsFilled s }
    ensures { IsSettled Scalar.Size s result }
{
    Outcome {
        value: converted_range(Scalar::Size, s),
        fault: Sure::Never,
    }
}

/// These numbers as results of a type.
pub fn results(ty: Scalar, s: Interval) -> Outcome
    requires { IsFilled s }
    ensures { IsSettled ty s result }
{
    match ty {
        Scalar::Int => clamped(ty, s),
        Scalar::Bool => clamped(ty, s),
        Scalar::Size => size_results(s),
        Scalar::Diff => clamped(ty, s),
    }
}
