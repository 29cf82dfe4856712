//! Valid ranges among the arguments of a call.
ghost use Rattle.std.specs.Prelude.{◌≡◌, ◌+◌, ◌<◌, map};
ghost use Rattle.sl_model.specs.LibraryCalls.Needs as needs;
ghost use Rattle.sl_model.specs.LibraryCalls.Needs.{first_failure};
ghost use Rattle.sl_model.specs.LibraryCalls.Situation.{Situation};
ghost use Rattle.sl_arguments.specs.Readings.{Reads, key_of};
ghost use Rattle.sl_needs.specs.Failures.{told};

use crate::failure::Failure;
use crate::places::no_one_range;
use sl_arguments::Arguments;
use sl_slots::Element;

/// Where the arguments from one on are no range of one container; they may be the wrong way round, or not.
pub fn range_failure(arguments: &Arguments, any_way: bool, number: usize) -> Option<Failure>
    requires { number < usize.MAX }
    ensures { (s : Situation) → Reads arguments.now s →
        told result ≡ first_failure (needs.one_range_fails any_way s number) }
{
    no_one_range(
        any_way,
        arguments.container(number),
        arguments.position(number),
        arguments.position(number + 1),
        number,
    )
}

/// Whether the arguments from one on are a valid range.
pub fn is_valid_range(arguments: &Arguments, number: usize) -> bool
    requires { number < usize.MAX }
    ensures { (s : Situation) → Reads arguments.now s → result ≡ needs.is_range s number }
{
    range_failure(arguments, false, number).is_none()
}

/// The elements of that range where it is a valid one, else none.
pub fn valid_range<'a>(arguments: &Arguments<'a>, number: usize) -> &'a [Element]
    requires { number < usize.MAX }
    ensures { (s : Situation) → Reads arguments.now s → map key_of result.now ≡ needs.valid_keys s number }
{
    if is_valid_range(arguments, number) {
        arguments.range(number)
    } else {
        &[]
    }
}
