//! Small facts on numbers.
ghost use Rattle.std.specs.Prelude.{◌≡◌, ◌⊎◌, ◌≤ℤ◌, ◌<ℤ◌, pos, int_lt};
ghost use Rattle.std.specs.Int.{int_min, int_max};
ghost use Rattle.sl_model.specs.Numbers.{lowest, highest, truth};

use sl_base::Scalar;

/// The least number of a type.
pub fn least(ty: Scalar) -> i128
    ensures { result ≡ lowest ty }
{
    match ty {
        Scalar::Int => -2147483648,
        Scalar::Bool => 0,
        Scalar::Size => 0,
        Scalar::Diff => -9223372036854775808,
    }
}

/// The greatest number of a type.
pub fn greatest(ty: Scalar) -> i128
    ensures { result ≡ highest ty }
{
    match ty {
        Scalar::Int => 2147483647,
        Scalar::Bool => 1,
        Scalar::Size => 18446744073709551615,
        Scalar::Diff => 9223372036854775807,
    }
}

/// The lesser of two numbers.
pub fn lesser(x: i128, y: i128) -> i128
    ensures is { result ≡ int_min x y }
    ensures first { result ≤ℤ x }
    ensures second { result ≤ℤ y }
    ensures one { (result ≡ x) ⊎ (result ≡ y) }
{
    if y < x { y } else { x }
}

/// The greater of two numbers.
pub fn greater(x: i128, y: i128) -> i128
    ensures is { result ≡ int_max x y }
    ensures first { x ≤ℤ result }
    ensures second { y ≤ℤ result }
    ensures one { (result ≡ x) ⊎ (result ≡ y) }
{
    if y < x { x } else { y }
}

/// 1 where one number is less than another, else 0.
pub fn is_less(x: i128, y: i128) -> i128
    ensures is { result ≡ truth (int_lt x y) }
    ensures below { x <ℤ y → result ≡ pos 1 }
    ensures not_below { y ≤ℤ x → result ≡ pos 0 }
    ensures low { pos 0 ≤ℤ result }
    ensures high { result ≤ℤ pos 1 }
{
    if x < y { 1 } else { 0 }
}
