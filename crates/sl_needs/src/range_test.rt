//! What is asked of each range of a call.
ghost use Rattle.std.specs.Prelude.{◌≡◌, ◌+◌, ◌-◌, ◌<◌, ◌==◌, ◌&&◌, map, length, if◌then◌else◌, nat_le, nat_lt, []};
ghost use Rattle.sl_model.specs.LibraryCalls.Needs as needs;
ghost use Rattle.sl_model.specs.LibraryCalls.Needs.{first_failure};
ghost use Rattle.sl_model.specs.LibraryCalls.Operands.{ranges_of};
ghost use Rattle.sl_model.specs.LibraryCalls.Situation.{Situation};
ghost use Rattle.sl_arguments.specs.Readings.{Reads, at};
ghost use Rattle.sl_needs.specs.Failures.{told};
ghost use Rattle.sl_needs.specs.Means.Letters.{takes_range};
ghost use Rattle.sl_needs.specs.Means.Ranges.{overlaps_as, meets, range_fails};

use crate::failure::{Failure, earlier, fails_if};
use crate::letters::{is_range, width};
use crate::orders::is_ascending;
use crate::ranges::{is_valid_range, range_failure, valid_range};
use sl_arguments::{Arguments, Position};
use sl_base::failures::{NOT_SORTED, OVERLAP, OWN_ELEMENTS};
use sl_specs::Letter;

/// How a range fails.
#[derive(Clone, Copy)]
pub enum RangeTest {
    /// It is no range of one container, and not one that is the wrong way round where it may be.
    Invalid {
        any_way: bool,
    },
    /// An output of so many elements from a position on overlaps it. For `std::copy`, the position stands in it.
    Overlapped {
        output: Position,
        count: usize,
        copies: bool,
        argument: usize,
    },
    /// It holds an element of the container with a number.
    Filled {
        container: usize,
        argument: usize,
    },
    /// It is a valid range, and not in order.
    Unsorted,
}

// Whether so many places from one on meet those from `low` to below `high`. For `std::copy`, whether the first stands there.
fn meet(copies: bool, index: usize, count: usize, low: usize, high: usize) -> bool
    ensures { result ≡ meets copies index count low high }
{
    if copies {
        (low <= index) & (index < high)
    } else {
        let end = (index as u128 + count as u128).min(high as u128);
        (index.max(low) as u128) < end
    }
}

// Whether an output of so many elements from a position on overlaps the range at an argument.
fn overlaps(
    arguments: &Arguments,
    output: Position,
    count: usize,
    copies: bool,
    number: usize,
) -> bool
    requires { number < usize.MAX }
    ensures { (s : Situation) → Reads arguments.now s → result ≡ overlaps_as copies s (at output) count number }
{
    let apart = meet(
        copies,
        output.index,
        count,
        arguments.index(number),
        arguments.index(number + 1),
    );
    (is_valid_range(arguments, number) & (output.container == arguments.container(number))) & apart
}

// Whether the range at an argument holds an element of the container with a number.
fn is_filled(arguments: &Arguments, container: usize, number: usize) -> bool
    requires { number < usize.MAX }
    ensures { (s : Situation) → Reads arguments.now s → result ≡ needs.is_filled_from s container number }
{
    (is_valid_range(arguments, number) & (arguments.container(number) == container))
        & (0 < arguments.range_size(number))
}

// How the range at an argument fails a test.
fn test_failure(arguments: &Arguments, test: RangeTest, number: usize) -> Option<Failure>
    requires { number < usize.MAX }
    ensures { (s : Situation) → Reads arguments.now s → told result ≡ first_failure (range_fails test s number) }
{
    match test {
        RangeTest::Invalid { any_way } => range_failure(arguments, any_way, number),
        RangeTest::Overlapped {
            output,
            count,
            copies,
            argument,
        } => fails_if(
            overlaps(arguments, output, count, copies, number),
            OVERLAP,
            argument,
        ),
        RangeTest::Filled {
            container,
            argument,
        } => fails_if(
            is_filled(arguments, container, number),
            OWN_ELEMENTS,
            argument,
        ),
        RangeTest::Unsorted => fails_if(
            !is_ascending(valid_range(arguments, number)),
            NOT_SORTED,
            number,
        ),
    }
}

// How the range that begins at an argument fails a test, where a letter stands for one.
fn letter_failure(
    arguments: &Arguments,
    letter: Letter,
    test: RangeTest,
    number: usize,
) -> Option<Failure>
    requires { number < usize.MAX }
    ensures { (s : Situation) → Reads arguments.now s →
        told result ≡ first_failure (if takes_range letter then range_fails test s number else []) }
{
    if is_range(letter) {
        test_failure(arguments, test, number)
    } else {
        None
    }
}

/// The first failure of the ranges of these letters in a test.
pub fn each_range(arguments: &Arguments, letters: &[Letter], test: RangeTest) -> Option<Failure>
    ensures { (s : Situation) → Reads arguments.now s →
        told result ≡ first_failure (needs.each_range (range_fails test s) (ranges_of letters.now)) }
{
    let mut failure = None;
    let mut number = 1;
    for letter in letters {
        failure = earlier(failure, letter_failure(arguments, *letter, test, number));
        number += width(*letter);
    }
    failure
}
