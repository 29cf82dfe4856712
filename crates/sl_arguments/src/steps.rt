//! Steps of iterators.
ghost use Rattle.std.specs.Prelude.{◌≡◌, ◌≤ℤ◌, pos, negsuc, neg_ℤ};
ghost use Rattle.sl_model.specs.Memory.Forms as forms;
ghost use Rattle.sl_model.specs.LibraryCalls.Situation.{Situation, difference_of};
ghost use Rattle.sl_arguments.specs.Readings.{Reads};

use crate::arguments::Arguments;
use crate::numbers::as_difference;

/// How far an iterator is moved, forward or, below 0, back; at most 2^63 either way.
#[derive(Clone, Copy)]
pub struct Steps {
    pub by: i128,
    ghost forward: { by ≤ℤ pos 9223372036854775808 },
    ghost back: { negsuc 9223372036854775807 ≤ℤ by },
}

impl Steps {
    /// The place that lies so far from another one of a container of this size, if there is one.
    pub fn from(self, size: usize, index: usize) -> Option<usize>
        ensures { result ≡ forms.step_of size index self.by }
    {
        let to = index as i128 + self.by;
        if self.by < 0 {
            if to < 0 { None } else { Some(to as usize) }
        } else {
            if to <= size as i128 {
                Some(to as usize)
            } else {
                None
            }
        }
    }

    /// The other way.
    pub fn turned(self) -> Steps
        ensures { result.by ≡ neg_ℤ self.by }
    {
        Steps { by: -self.by }
    }
}

impl<'a> Arguments<'a> {
    /// An argument as a `std::ptrdiff_t`, 0 where it is no number.
    pub fn difference(&self, number: usize) -> Steps
        ensures { (s : Situation) → Reads self.now s → result.by ≡ difference_of s number }
    {
        Steps {
            by: as_difference(self.value(number)),
        }
    }
}
