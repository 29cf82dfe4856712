//! Conversions of the members of intervals.
ghost use Rattle.std.specs.Prelude.{◌≡◌, ◌≢◌, pos, negsuc, ◌+ℤ◌, ◌-ℤ◌, ◌≤ℤ◌, ◌<ℤ◌, true, false};
ghost use Rattle.sl_base.specs.declared.scalar.Scalar.{Scalar};
ghost use Rattle.sl_model.specs.Numbers.{converted, lowest, highest};
ghost use Rattle.sl_intervals.specs.Intervals.{IsEmpty, IsFilled, LiesIn};
ghost use Rattle.sl_intervals.specs.Images.{IsImage};

use crate::interval::{Interval, between, empty};
use crate::numbers::{greatest, least};
use sl_base::Scalar;

/// A number from 0 on, less than twice the half, as the one from -half on that differs by twice the half or by 0.
fn centred_rest(rest: i128, half: i128) -> i128
    requires low { pos 0 ≤ℤ rest }
    requires high { rest <ℤ (half +ℤ half) }
    requires half { half ≤ℤ pos 9223372036854775808 }
    ensures same { rest <ℤ half → result ≡ rest }
    ensures around { half ≤ℤ rest → result ≡ (rest -ℤ (half +ℤ half)) }
{
    if rest < half {
        rest
    } else {
        rest - half - half
    }
}

/// The low end converted to `int`.
fn first_as_int(a: Interval) -> i128
    ensures { result ≡ converted Scalar.Int a.low }
{
    centred_rest(a.low.rem_euclid(4294967296), 2147483648)
}

/// The low end converted to `std::size_t`.
fn first_as_size(a: Interval) -> i128
    ensures { result ≡ converted Scalar.Size a.low }
{
    a.low.rem_euclid(18446744073709551616)
}

/// The low end converted to `std::ptrdiff_t`.
fn first_as_diff(a: Interval) -> i128
    ensures { result ≡ converted Scalar.Diff a.low }
{
    centred_rest(a.low.rem_euclid(18446744073709551616), 9223372036854775808)
}

/// The low end converted to a type other than `bool`.
fn first_in(to: Scalar, a: Interval) -> i128
    requires { to ≢ Scalar.Bool }
    ensures { result ≡ converted to a.low }
{
    match to {
        Scalar::Int => first_as_int(a),
        Scalar::Bool => a.low,
        Scalar::Size => first_as_size(a),
        Scalar::Diff => first_as_diff(a),
    }
}

/// How far the type goes on from one of its numbers.
fn room_above(ty: Scalar, z: i128) -> i128
    requires low { lowest ty ≤ℤ z }
    requires high { z ≤ℤ highest ty }
    ensures is { result ≡ (highest ty -ℤ z) }
    ensures low { pos 0 ≤ℤ result }
    ensures high { result ≤ℤ pos 18446744073709551615 }
{
    greatest(ty) - z
}

/// Whether the ends are at most so far apart.
fn is_near(a: Interval, room: i128) -> bool
    requires low { pos 0 ≤ℤ room }
    requires high { room ≤ℤ pos 18446744073709551615 }
    ensures near { result ≡ true → a.high ≤ℤ (a.low +ℤ room) }
    ensures far { result ≡ false → (a.low +ℤ room) <ℤ a.high }
{
    if a.low > i128::MAX - room {
        return true;
    }
    a.high <= a.low + room
}

/// A number as far above one as the high end is above the low end.
fn carried(a: Interval, first: i128) -> i128
    requires order { a.low ≤ℤ a.high }
    requires near { a.high ≤ℤ (a.low +ℤ pos 18446744073709551615) }
    requires above { negsuc 9223372036854775807 ≤ℤ first }
    requires below { first ≤ℤ pos 18446744073709551615 }
    ensures { result ≡ (first +ℤ (a.high -ℤ a.low)) }
{
    first + (a.high - a.low)
}

/// What the members become in a type other than `bool`: where that doesn't go past the type's end, numbers in a row,
/// else all of the type.
pub fn converted_range(to: Scalar, a: Interval) -> Interval
    requires numbers { to ≢ Scalar.Bool }
    requires filled { IsFilled a }
    ensures { IsImage to a result }
{
    let first = first_in(to, a);
    if is_near(a, room_above(to, first)) {
        between(first, carried(a, first))
    } else {
        between(least(to), greatest(to))
    }
}

/// What the members become in `bool`.
fn truth_range(a: Interval) -> Interval
    requires { IsFilled a }
    ensures { IsImage Scalar.Bool a result }
{
    if a.low > 0 {
        return between(1, 1);
    }
    if a.high < 0 {
        return between(1, 1);
    }
    if a.low < 0 {
        return between(0, 1);
    }
    if a.high > 0 {
        return between(0, 1);
    }
    between(0, 0)
}

/// What the members become in a type.
pub fn convert(to: Scalar, a: Interval) -> Interval
    ensures none { IsEmpty a → IsEmpty result }
    ensures image { IsFilled a → IsImage to a result }
    ensures within { LiesIn to result }
{
    if a.low > a.high {
        return empty();
    }
    match to {
        Scalar::Bool => truth_range(a),
        _ => converted_range(to, a),
    }
}
