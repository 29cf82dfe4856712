//! Comparison of the members of intervals.
ghost use Rattle.std.specs.Prelude.{◌≡◌, ◌⊎◌, ℤ, int_lt};
ghost use Rattle.sl_syntax.specs.declared.operator.Comparison.{Comparison};
ghost use Rattle.sl_model.specs.Numbers.{compared, truth};
ghost use Rattle.sl_intervals.specs.Intervals.{Holds, IsEmpty, IsFilled, LiesIn};
ghost use Rattle.sl_base.specs.declared.scalar.Scalar.{Scalar};

use crate::interval::{Interval, between, empty};
use crate::numbers::is_less;
use crate::outcome::Outcome;
use crate::sure::Sure;

/// Whether members of `a` are less than members of `b`, as a number: 1 where all are, 0 where none is, else both.
/// Comparing faults nowhere.
pub fn less(a: Interval, b: Interval) -> Outcome
    ensures none { (IsEmpty a ⊎ IsEmpty b) → IsEmpty result.value }
    ensures low { IsFilled a → IsFilled b → result.value.low ≡ truth (int_lt a.high b.low) }
    ensures high { IsFilled a → IsFilled b → result.value.high ≡ truth (int_lt a.low b.high) }
    ensures holds { (x y : ℤ) → Holds a x → Holds b y → Holds result.value (truth (compared Comparison.Less x y)) }
    ensures within { LiesIn Scalar.Bool result.value }
    ensures fault { result.fault ≡ Sure.Never }
{
    if a.low > a.high {
        return Outcome {
            value: empty(),
            fault: Sure::Never,
        };
    }
    if b.low > b.high {
        return Outcome {
            value: empty(),
            fault: Sure::Never,
        };
    }
    Outcome {
        value: between(is_less(a.high, b.low), is_less(a.low, b.high)),
        fault: Sure::Never,
    }
}
