//! What is chosen at each step.
ghost use Rattle.std.specs.Prelude.{◌<◌};
ghost use Rattle.sl_base.specs.declared.scalar.Scalar.TheVariants as kind;
ghost use Rattle.sl_intervals.specs.Intervals.{LiesIn};

use crate::list::Pair;
use sl_intervals::Interval;

/// A sequence of numbers, and what it is used for: how many elements a list may have, and how far the ends of the
/// intervals that are given may be from a place and from a number.
#[derive(Drop)]
pub struct Choices {
    state: u64,
    pub room: usize,
    places: usize,
    numbers: usize,
}

impl Choices {
    pub fn new() -> Choices {
        Choices {
            state: 1,
            room: 0,
            places: 0,
            numbers: 0,
        }
    }

    /// Begins a turn of one of four sorts, with cells that know so many elements: single numbers that all have room,
    /// single numbers, intervals at single places, or intervals at places that aren't known either.
    pub fn begin(&mut self, sort: usize, known: usize) {
        self.room = if sort == 0 {
            known
        } else {
            known.saturating_add(4)
        };
        self.numbers = if sort < 2 { 0 } else { 3 };
        self.places = if sort < 3 { 0 } else { 2 };
    }

    /// Whether all that is given is to be known in the end too.
    pub fn keeps_all(&self) -> bool {
        self.numbers == 0
    }

    /// A number below another, and 0 below 0.
    pub fn below(&mut self, count: usize) -> usize
        ensures { 0 < count → result < count }
    {
        let product = self.state.wrapping_mul(6364136223846793005);
        self.state = product.wrapping_add(1442695040888963407);
        (self.state / 8589934592) as usize % count.max(1)
    }

    /// A number near 0, or an end of int.
    pub fn int(&mut self) -> i32 {
        match self.below(24) {
            0 => i32::MIN,
            1 => i32::MAX,
            n => (n as i32).saturating_sub(12),
        }
    }

    /// An element.
    pub fn pair(&mut self) -> Pair {
        let key = self.int();
        let value = self.int();
        Pair { key, value }
    }

    /// An interval of ints that holds a number.
    pub fn around(&mut self, z: i32) -> Interval
        ensures { LiesIn kind.Int result }
    {
        let low = z.saturating_sub(self.off());
        let high = z.saturating_add(self.off());
        between(low, high)
    }

    /// An interval that holds a place.
    pub fn near(&mut self, place: usize) -> Interval {
        let reach = self.places.saturating_add(1);
        let low = (place as i128).saturating_sub(self.below(reach) as i128);
        let high = (place as i128).saturating_add(self.below(reach) as i128);
        Interval { low, high }
    }

    // How far an end is off.
    fn off(&mut self) -> i32 {
        let reach = self.numbers.saturating_add(1);
        match self.below(reach) {
            0 => 0,
            1 => 1,
            2 => 2,
            _ => 3,
        }
    }
}

// The ints from one to another, if there are any.
fn between(low: i32, high: i32) -> Interval
    ensures { LiesIn kind.Int result }
{
    Interval {
        low: i128::from(low),
        high: i128::from(high),
    }
}
