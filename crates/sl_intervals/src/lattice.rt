//! Joins and meets of intervals.
ghost use Rattle.std.specs.Prelude.{◌≡◌, ◌⊎◌, ◌↔◌, ℤ};
ghost use Rattle.std.specs.Int.{int_min, int_max};
ghost use Rattle.sl_base.specs.declared.scalar.Scalar.{Scalar};
ghost use Rattle.sl_intervals.specs.Intervals.{Holds, IsEmpty, IsFilled, LiesIn, IsAtLeast, IsAtMost};
ghost use Rattle.sl_intervals.specs.Means.Ends.{IsInner, IsOuter};

use crate::interval::{Interval, between};
use crate::numbers::{greater, lesser};

/// The numbers from the lesser of two to the greater.
pub fn ordered(x: i128, y: i128) -> Interval
    ensures low { result.low ≡ int_min x y }
    ensures high { result.high ≡ int_max x y }
{
    between(lesser(x, y), greater(x, y))
}

/// The numbers from the lesser low end to the greater high end.
pub fn outer(a: Interval, b: Interval) -> Interval
    ensures low { result.low ≡ int_min a.low b.low }
    ensures high { result.high ≡ int_max a.high b.high }
    ensures outer { IsOuter a b result }
{
    between(lesser(a.low, b.low), greater(a.high, b.high))
}

/// The least interval that holds all members of both.
pub fn join(a: Interval, b: Interval) -> Interval
    ensures first_empty { IsEmpty a → result ≡ b }
    ensures second_empty { IsFilled a → IsEmpty b → result ≡ a }
    ensures low { IsFilled a → IsFilled b → result.low ≡ int_min a.low b.low }
    ensures high { IsFilled a → IsFilled b → result.high ≡ int_max a.high b.high }
    ensures holds { (z : ℤ) → (Holds a z ⊎ Holds b z) → Holds result z }
    ensures at_least { (z : ℤ) → IsAtLeast a z → IsAtLeast b z → IsAtLeast result z }
    ensures at_most { (z : ℤ) → IsAtMost a z → IsAtMost b z → IsAtMost result z }
    ensures within { (ty : Scalar) → LiesIn ty a → LiesIn ty b → LiesIn ty result }
{
    if a.low > a.high {
        return b;
    }
    if b.low > b.high {
        return a;
    }
    outer(a, b)
}

/// The numbers from the greater low end to the lesser high end.
fn inner(a: Interval, b: Interval) -> Interval
    ensures low { result.low ≡ int_max a.low b.low }
    ensures high { result.high ≡ int_min a.high b.high }
    ensures inner { IsInner a b result }
{
    between(greater(a.low, b.low), lesser(a.high, b.high))
}

/// The members that two intervals share.
pub fn meet(a: Interval, b: Interval) -> Interval
    ensures low { result.low ≡ int_max a.low b.low }
    ensures high { result.high ≡ int_min a.high b.high }
    ensures holds { (z : ℤ) → (Holds result z ↔ (Holds a z × Holds b z)) }
    ensures at_least { (z : ℤ) → (IsAtLeast a z ⊎ IsAtLeast b z) → IsAtLeast result z }
    ensures at_most { (z : ℤ) → (IsAtMost a z ⊎ IsAtMost b z) → IsAtMost result z }
    ensures within { (ty : Scalar) → (LiesIn ty a ⊎ LiesIn ty b) → LiesIn ty result }
{
    inner(a, b)
}
