//! Elements in order.
ghost use Rattle.std.specs.Prelude.{◌≡◌, map, length};
ghost use Rattle.sl_model.specs.Memory.Orders as spec;
ghost use Rattle.sl_arguments.specs.Readings.{key_of};
ghost use Rattle.sl_needs.specs.Means.Bounds.{is_within};

use sl_slots::Element;

/// The keys below a number, or those up to it.
#[derive(Clone, Copy)]
pub enum Bound {
    Below(i128),
    UpTo(i128),
}

impl Bound {
    // Whether a key is one of these.
    fn holds(self, element: &Element) -> bool
        ensures { result ≡ is_within self (key_of element.now) }
    {
        let key = i128::from(element.key);
        match self {
            Bound::Below(number) => key < number,
            Bound::UpTo(number) => !(number < key),
        }
    }
}

/// Whether no key is less than the one before it.
pub fn is_ascending(elements: &[Element]) -> bool
    ensures { result ≡ spec.is_ascending (map key_of elements.now) }
{
    let [first, rest @ ..] = elements else {
        return true;
    };
    let mut before = first.key;
    for element in rest {
        if element.key < before {
            return false;
        }
        before = element.key;
    }
    true
}

/// Whether the elements with keys within a bound come before all others.
pub fn is_partitioned(elements: &[Element], bound: Bound) -> bool
    ensures { result ≡ spec.is_partitioned (is_within bound) (map key_of elements.now) }
{
    let mut front = true;
    for element in elements {
        let within = bound.holds(element);
        if within & !front {
            return false;
        }
        front = front & within;
    }
    true
}
