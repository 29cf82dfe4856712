use crate::TrapInfo;
use sl_base::Place;

/// How a run ends.
#[derive(Drop)]
pub enum End {
    /// By the end of `main`, with what it gives.
    Done(i32),
    /// At a failed need of a call of the library.
    Trap(TrapInfo),
    /// Its steps are used up.
    OutOfSteps,
    /// A fault of the language, by its number: 1 an overflow, 2 a zero divisor, 3 a variable that isn't set, 4 no return
    /// value, 5 too many calls in progress.
    Language { place: Place, why: u8 },
    /// An exception.
    Thrown { place: Place },
}
