//! Widening of intervals.
ghost use Rattle.std.specs.Prelude.{◌≡◌, ◌⊎◌, ℤ, ◌≤ℤ◌, ◌<ℤ◌};
ghost use Rattle.sl_base.specs.declared.scalar.Scalar.{Scalar};
ghost use Rattle.sl_model.specs.Numbers.{lowest, highest};
ghost use Rattle.sl_intervals.specs.Intervals.{Holds, IsEmpty, IsFilled, IsWithin, IsAtLeast, IsAtMost, LiesIn};
ghost use Rattle.sl_intervals.specs.Stops.{IsOneOf, IsStopAbove, IsStopBelow};

use crate::interval::{Interval, between};
use crate::stops::{stop_above, stop_below};
use sl_base::Scalar;

/// The low end, gone down to a stop where it fell.
fn widened_low(old: Interval, new: Interval, constants: &[i128], ty: Scalar) -> i128
    requires low { lowest ty ≤ℤ new.low }
    requires high { new.low ≤ℤ highest ty }
    ensures kept { old.low ≤ℤ new.low → result ≡ old.low }
    ensures fallen { new.low <ℤ old.low → IsStopBelow ty constants.now new.low result }
{
    if old.low <= new.low {
        return old.low;
    }
    stop_below(new, constants, ty)
}

/// The high end, gone up to a stop where it grew.
fn widened_high(old: Interval, new: Interval, constants: &[i128], ty: Scalar) -> i128
    requires low { lowest ty ≤ℤ new.high }
    requires high { new.high ≤ℤ highest ty }
    ensures kept { new.high ≤ℤ old.high → result ≡ old.high }
    ensures grown { old.high <ℤ new.high → IsStopAbove ty constants.now new.high result }
{
    if new.high <= old.high {
        return old.high;
    }
    stop_above(new, constants, ty)
}

/// The old interval, where a high end that grew goes to the least of the constants in the type that isn't below it, and
/// a low end that fell to the greatest that isn't above it; where there is none, to the type's end.
pub fn widen(old: Interval, new: Interval, constants: &[i128], ty: Scalar) -> Interval
    requires old { LiesIn ty old }
    requires new { LiesIn ty new }
    ensures old_empty { IsEmpty old → result ≡ new }
    ensures new_empty { IsFilled old → IsEmpty new → result ≡ old }
    ensures low_kept { IsFilled old → IsFilled new → old.low ≤ℤ new.low → result.low ≡ old.low }
    ensures low_fallen { IsFilled old → IsFilled new → new.low <ℤ old.low →
        IsStopBelow ty constants.now new.low result.low }
    ensures high_kept { IsFilled old → IsFilled new → new.high ≤ℤ old.high → result.high ≡ old.high }
    ensures high_grown { IsFilled old → IsFilled new → old.high <ℤ new.high →
        IsStopAbove ty constants.now new.high result.high }
    ensures holds { (z : ℤ) → (Holds old z ⊎ Holds new z) → Holds result z }
    ensures at_least { (z : ℤ) → IsOneOf ty constants.now z → IsAtLeast old z → IsAtLeast new z → IsAtLeast result z }
    ensures at_most { (z : ℤ) → IsOneOf ty constants.now z → IsAtMost old z → IsAtMost new z → IsAtMost result z }
    ensures within { LiesIn ty result }
{
    if old.low > old.high {
        return new;
    }
    if new.low > new.high {
        return old;
    }
    between(
        widened_low(old, new, constants, ty),
        widened_high(old, new, constants, ty),
    )
}
