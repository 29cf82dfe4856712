//! Ranges among the arguments of a call.
ghost use Rattle.std.specs.Prelude.{◌≡◌, ◌+◌, ◌-◌, ◌<◌, map, length, slice_range};
ghost use Rattle.sl_model.specs.LibraryCalls.Situation as spec;
ghost use Rattle.sl_model.specs.LibraryCalls.Situation.{Situation};
ghost use Rattle.sl_slots.specs.Shown.{element_of};
ghost use Rattle.sl_arguments.specs.Readings.{Reads, key_of};

use crate::arguments::Arguments;
use sl_slots::Element;

// The elements from a place on, up to below another one.
fn between<'a>(elements: &'a [Element], low: usize, high: usize) -> &'a [Element]
    ensures { result.now ≡ slice_range elements.now low high }
{
    let end = high.min(elements.len());
    if low < end { &elements[low..end] } else { &[] }
}

impl<'a> Arguments<'a> {
    /// The elements from an argument on up to the next one, where they are a range.
    pub fn range(&self, number: usize) -> &'a [Element]
        requires { number < usize.MAX }
        ensures elements { (s : Situation) → Reads self.now s → result.now ≡
            slice_range (map element_of (spec.their s number).cells) (spec.index s number) (spec.index s (number + 1)) }
        ensures keys { (s : Situation) → Reads self.now s → map key_of result.now ≡ spec.range_keys s number }
    {
        between(
            self.elements(self.container(number)),
            self.index(number),
            self.index(number + 1),
        )
    }

    /// How many elements that range has.
    pub fn range_size(&self, number: usize) -> usize
        requires { number < usize.MAX }
        ensures { (s : Situation) → Reads self.now s → result ≡ spec.range_size s number }
    {
        self.index(number + 1).saturating_sub(self.index(number))
    }
}
