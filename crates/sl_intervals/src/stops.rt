//! Where a widened end goes.
ghost use Rattle.std.specs.Prelude.{◌≡◌, ◌≤ℤ◌, ◌<ℤ◌};
ghost use Rattle.sl_base.specs.declared.scalar.Scalar.{Scalar};
ghost use Rattle.sl_model.specs.Numbers.{lowest, highest};
ghost use Rattle.sl_intervals.specs.Stops.{IsStopAbove, IsStopBelow};

use crate::interval::Interval;
use crate::numbers::{greatest, least};
use sl_base::Scalar;

/// A stop above the high end, once one more number is seen.
fn nearer_above(stop: i128, number: i128, a: Interval) -> i128
    ensures taken { a.high ≤ℤ number → number ≤ℤ stop → result ≡ number }
    ensures under { number <ℤ a.high → result ≡ stop }
    ensures over { stop <ℤ number → result ≡ stop }
{
    if number < a.high {
        return stop;
    }
    if stop < number { stop } else { number }
}

/// A stop below the low end, once one more number is seen.
fn nearer_below(stop: i128, number: i128, a: Interval) -> i128
    ensures taken { number ≤ℤ a.low → stop ≤ℤ number → result ≡ number }
    ensures over { a.low <ℤ number → result ≡ stop }
    ensures under { number <ℤ stop → result ≡ stop }
{
    if a.low < number {
        return stop;
    }
    if number < stop { stop } else { number }
}

/// The least number of the list and the type that isn't below the high end, or the type's greatest.
pub fn stop_above(a: Interval, constants: &[i128], ty: Scalar) -> i128
    requires low { lowest ty ≤ℤ a.high }
    requires high { a.high ≤ℤ highest ty }
    ensures { IsStopAbove ty constants.now a.high result }
{
    let mut stop = greatest(ty);
    for i in 0..constants.len() {
        stop = nearer_above(stop, constants[i], a);
    }
    stop
}

/// The greatest number of the list and the type that isn't above the low end, or the type's least.
pub fn stop_below(a: Interval, constants: &[i128], ty: Scalar) -> i128
    requires low { lowest ty ≤ℤ a.low }
    requires high { a.low ≤ℤ highest ty }
    ensures { IsStopBelow ty constants.now a.low result }
{
    let mut stop = least(ty);
    for i in 0..constants.len() {
        stop = nearer_below(stop, constants[i], a);
    }
    stop
}
