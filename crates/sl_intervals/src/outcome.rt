//! Answers of the operators.
ghost use Rattle.std.specs.Prelude.{◌≡◌};
ghost use Rattle.sl_intervals.specs.Intervals.{IsEmpty};

use crate::interval::{Interval, empty};
use crate::sure::Sure;

/// What an operator gives on the members of two intervals, and whether it faults there.
#[derive(Clone, Copy)]
pub struct Outcome {
    pub value: Interval,
    pub fault: Sure,
}

/// What an operator gives where there are no members.
pub fn no_outcome() -> Outcome
    ensures value { IsEmpty result.value }
    ensures fault { result.fault ≡ Sure.Never }
{
    Outcome {
        value: empty(),
        fault: Sure::Never,
    }
}
