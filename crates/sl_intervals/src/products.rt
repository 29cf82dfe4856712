//! Products of the members of intervals.
ghost use Rattle.std.specs.Prelude.{◌≡◌, ◌≢◌, pos, ◌*ℤ◌, ◌≤ℤ◌, ◌<ℤ◌, true, false, FitsSigned};
ghost use Rattle.std.specs.Int.{int_min, int_max, w128};
ghost use Rattle.sl_base.specs.declared.scalar.Scalar.{Scalar};
ghost use Rattle.sl_syntax.specs.declared.operator.Arithmetic.{Arithmetic};
ghost use Rattle.sl_model.specs.Numbers.{converted, operated, lowest, highest};
ghost use Rattle.sl_intervals.specs.Intervals.{IsFilled, IsSingle, IsWithin, LiesIn};
ghost use Rattle.sl_intervals.specs.Means.Multiplying.{HaveProducts, IsWhole};
ghost use Rattle.sl_intervals.specs.Outcomes.{IsOutcome};
ghost use Rattle.sl_intervals.specs.Products.{least_product, greatest_product, IsPlain};

use crate::interval::{Interval, between};
use crate::lattice::{ordered, outer};
use crate::outcome::{Outcome, no_outcome};
use crate::settling::clamped;
use crate::sure::Sure;
use sl_base::Scalar;

/// The product of two numbers that 128 bits have.
fn product(x: i128, y: i128) -> i128
    requires { FitsSigned w128 (x *ℤ y) }
    ensures { result ≡ (x *ℤ y) }
{
    x * y
}

/// The products of the low end of the first, from the least to the greatest.
fn products_of_low(a: Interval, b: Interval) -> Interval
    requires { HaveProducts a b }
    ensures low { result.low ≡ int_min (a.low *ℤ b.low) (a.low *ℤ b.high) }
    ensures high { result.high ≡ int_max (a.low *ℤ b.low) (a.low *ℤ b.high) }
{
    ordered(product(a.low, b.low), product(a.low, b.high))
}

/// The products of the high end of the first, from the least to the greatest.
fn products_of_high(a: Interval, b: Interval) -> Interval
    requires { HaveProducts a b }
    ensures low { result.low ≡ int_min (a.high *ℤ b.low) (a.high *ℤ b.high) }
    ensures high { result.high ≡ int_max (a.high *ℤ b.low) (a.high *ℤ b.high) }
{
    ordered(product(a.high, b.low), product(a.high, b.high))
}

/// The numbers from the least to the greatest product of ends.
fn exact_products(a: Interval, b: Interval) -> Interval
    requires { HaveProducts a b }
    ensures low { result.low ≡ least_product a b }
    ensures high { result.high ≡ greatest_product a b }
{
    outer(products_of_low(a, b), products_of_high(a, b))
}

/// The products of members, where none is taken modulo.
fn plain_products(ty: Scalar, a: Interval, b: Interval) -> Outcome
    requires number { ty ≢ Scalar.Bool }
    requires plain { IsPlain ty a b }
    requires first { IsWithin ty a }
    requires second { IsWithin ty b }
    requires first_filled { IsFilled a }
    requires second_filled { IsFilled b }
    ensures outcome { IsOutcome (operated Arithmetic.Multiply ty) ty a b result }
    ensures low { result.value.low ≡ int_max (least_product a b) (lowest ty) }
    ensures high { result.value.high ≡ int_min (greatest_product a b) (highest ty) }
{
    clamped(ty, exact_products(a, b))
}

/// The product of two sizes.
fn size_product(x: i128, y: i128) -> u128
    requires first { pos 0 ≤ℤ x }
    requires second { pos 0 ≤ℤ y }
    requires first_bound { x ≤ℤ pos 18446744073709551615 }
    requires second_bound { y ≤ℤ pos 18446744073709551615 }
    ensures { pos result ≡ (x *ℤ y) }
{
    x.unsigned_abs() * y.unsigned_abs()
}

/// Whether the product of the high ends is past the greatest size.
fn is_past_size(a: Interval, b: Interval) -> bool
    requires first { IsWithin Scalar.Size a }
    requires second { IsWithin Scalar.Size b }
    requires first_filled { IsFilled a }
    requires second_filled { IsFilled b }
    ensures past { result ≡ true → highest Scalar.Size <ℤ (a.high *ℤ b.high) }
    ensures plain { result ≡ false → (a.high *ℤ b.high) ≤ℤ highest Scalar.Size }
{
    size_product(a.high, b.high) > 18446744073709551615
}

/// The product of the low ends, taken modulo.
fn wrapped_product(a: Interval, b: Interval) -> i128
    requires first { IsWithin Scalar.Size a }
    requires second { IsWithin Scalar.Size b }
    requires first_filled { IsFilled a }
    requires second_filled { IsFilled b }
    ensures { result ≡ converted Scalar.Size (a.low *ℤ b.low) }
{
    (size_product(a.low, b.low) % 18446744073709551616) as i128
}

/// What holds the products of sizes, whichever they are: of single numbers their product, else all of the type.
fn wrapped_range(a: Interval, b: Interval) -> Interval
    requires first { IsWithin Scalar.Size a }
    requires second { IsWithin Scalar.Size b }
    requires first_filled { IsFilled a }
    requires second_filled { IsFilled b }
    ensures first_wide { a.low <ℤ a.high → IsWhole Scalar.Size result }
    ensures second_wide { b.low <ℤ b.high → IsWhole Scalar.Size result }
    ensures single { a.low ≡ a.high → b.low ≡ b.high → IsSingle result (converted Scalar.Size (a.low *ℤ b.low)) }
{
    if a.low < a.high {
        return between(0, 18446744073709551615);
    }
    if b.low < b.high {
        return between(0, 18446744073709551615);
    }
    let product = wrapped_product(a, b);
    between(product, product)
}

/// The products of sizes, taken modulo.
fn wrapped_products(a: Interval, b: Interval) -> Outcome
    requires first { IsWithin Scalar.Size a }
    requires second { IsWithin Scalar.Size b }
    requires first_filled { IsFilled a }
    requires second_filled { IsFilled b }
    ensures { IsOutcome (operated Arithmetic.Multiply Scalar.Size) Scalar.Size a b result }
{
    Outcome {
        value: wrapped_range(a, b),
        fault: Sure::Never,
    }
}

/// The products of sizes.
fn size_products(a: Interval, b: Interval) -> Outcome
    requires first { IsWithin Scalar.Size a }
    requires second { IsWithin Scalar.Size b }
    requires first_filled { IsFilled a }
    requires second_filled { IsFilled b }
    ensures outcome { IsOutcome (operated Arithmetic.Multiply Scalar.Size) Scalar.Size a b result }
    ensures low { IsPlain Scalar.Size a b → result.value.low ≡ int_max (least_product a b) (lowest Scalar.Size) }
    ensures high { IsPlain Scalar.Size a b → result.value.high ≡ int_min (greatest_product a b) (highest Scalar.Size) }
{
    if is_past_size(a, b) {
        return wrapped_products(a, b);
    }
    plain_products(Scalar::Size, a, b)
}

/// The products of members. Where none is taken modulo, the value goes from the least to the greatest product of ends,
/// as far as the type does.
pub fn mul(ty: Scalar, a: Interval, b: Interval) -> Outcome
    requires number { ty ≢ Scalar.Bool }
    requires first { LiesIn ty a }
    requires second { LiesIn ty b }
    ensures outcome { IsOutcome (operated Arithmetic.Multiply ty) ty a b result }
    ensures low { IsPlain ty a b → IsFilled a → IsFilled b →
        result.value.low ≡ int_max (least_product a b) (lowest ty) }
    ensures high { IsPlain ty a b → IsFilled a → IsFilled b →
        result.value.high ≡ int_min (greatest_product a b) (highest ty) }
{
    if a.low > a.high {
        return no_outcome();
    }
    if b.low > b.high {
        return no_outcome();
    }
    match ty {
        Scalar::Size => size_products(a, b),
        _ => plain_products(ty, a, b),
    }
}
