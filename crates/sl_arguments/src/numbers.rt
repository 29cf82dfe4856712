//! Values as numbers of the types of C++.
ghost use Rattle.std.specs.Prelude.{◌≡◌, pos, negsuc, ◌+ℤ◌, ◌-ℤ◌, ◌≤ℤ◌, ◌<ℤ◌};
ghost use Rattle.sl_base.specs.declared.scalar.Scalar.TheVariants as scalar;
ghost use Rattle.sl_model.specs.Numbers.{converted, modulo};
ghost use Rattle.sl_arguments.specs.Means.Values.{number_shown};

use sl_slots::Value;

// A number from 0 on, less than twice the half, as the one from -half on that differs by twice the half or by 0.
fn centred(rest: i128, half: i128) -> i128
    requires low { pos 0 ≤ℤ rest }
    requires high { rest <ℤ (half +ℤ half) }
    requires half { half ≤ℤ pos 9223372036854775808 }
    ensures same { rest <ℤ half → result ≡ rest }
    ensures around { half ≤ℤ rest → result ≡ (rest -ℤ (half +ℤ half)) }
{
    if rest < half {
        rest
    } else {
        rest - half - half
    }
}

// The number that a value is, 0 for any other value.
fn number_in(value: Value) -> i128
    ensures { result ≡ number_shown value }
{
    match value {
        Value::Number(z) => z,
        _ => 0,
    }
}

/// A value as an `int`.
pub fn as_int(value: Value) -> i128
    ensures { result ≡ converted scalar.Int (number_shown value) }
{
    centred(number_in(value).rem_euclid(4294967296), 2147483648)
}

/// A value as a `std::size_t`.
pub fn as_count(value: Value) -> usize
    ensures { result ≡ modulo (number_shown value) 18446744073709551616 }
{
    number_in(value).rem_euclid(18446744073709551616) as usize
}

/// A value as a `std::ptrdiff_t`.
pub fn as_difference(value: Value) -> i128
    ensures value { result ≡ converted scalar.Diff (number_shown value) }
    ensures low { pos 0 ≤ℤ (result +ℤ pos 9223372036854775808) }
    ensures high { result <ℤ pos 9223372036854775808 }
{
    centred(
        number_in(value).rem_euclid(18446744073709551616),
        9223372036854775808,
    )
}
