//! Where an algorithm writes, and how many elements.
ghost use Rattle.std.specs.Prelude.{◌≡◌, ◌+◌, ◌-◌, ◌<◌, ◌++◌, ◌∷◌, ℕ, List, Some, None, nat_lt, not, ◌&&◌, length};
ghost use Rattle.sl_specs.specs.Entries.{entry_row};
ghost use Rattle.sl_specs.specs.declared.need.Need.TheVariants as needs;
ghost use Rattle.sl_model.specs.LibraryCalls.Needs as spec;
ghost use Rattle.sl_model.specs.LibraryCalls.Needs.{first_failure, failures};
ghost use Rattle.sl_model.specs.LibraryCalls.Operands as operands;
ghost use Rattle.sl_model.specs.LibraryCalls.Situation.{Situation, place_of};
ghost use Rattle.sl_arguments.specs.Readings.{Reads, placed, at};
ghost use Rattle.sl_needs.specs.Failures.{told};

use crate::failure::{Failure, earlier, fails_if};
use crate::places::invalid;
use crate::range_test::{RangeTest, each_range};
use crate::written::output_count;
use sl_arguments::{Arguments, Position, container_at};
use sl_base::failures::NO_ROOM;
use sl_specs::{Call, Entry};

/// Whether a call is `std::copy`.
fn is_copy(call: Call) -> bool
    ensures { result ≡ operands.is_copy call }
{
    matches!(call, Call::Copy)
}

// Where so many elements that an algorithm writes from a position on have no room, or overlap a range.
fn written_failure(
    arguments: &Arguments,
    entry: &Entry,
    output: Position,
    count: usize,
) -> Option<Failure>
    ensures { (s : Situation) → Reads arguments.now s →
        told result ≡ first_failure (spec.places_fail (entry_row entry.now) s (length s.values) (at output) (Some count)) }
{
    let argument = arguments.count();
    let room = arguments
        .size(output.container)
        .saturating_sub(output.index);
    let test = RangeTest::Overlapped {
        output,
        count,
        copies: is_copy(entry.call),
        argument,
    };
    earlier(
        fails_if(room < count, NO_ROOM, argument),
        each_range(arguments, entry.signature.letters, test),
    )
}

// The same, where it is told how many there are.
fn output_failure(arguments: &Arguments, entry: &Entry, output: Position) -> Option<Failure>
    ensures { (s : Situation) → Reads arguments.now s → told result ≡ first_failure (spec.places_fail (entry_row entry.now) s
        (length s.values) (at output) (operands.output_count (entry_row entry.now).call s)) }
{
    match output_count(arguments, entry.call) {
        Some(count) => written_failure(arguments, entry, output, count),
        None => None,
    }
}

// Where the output, the last argument, stands nowhere or fails.
fn output_place_failure(arguments: &Arguments, entry: &Entry) -> Option<Failure>
    ensures { (s : Situation) → Reads arguments.now s → told result ≡
        first_failure (spec.output_place_fails (entry_row entry.now) s (length s.values) (place_of s (length s.values))) }
{
    let argument = arguments.count();
    match arguments.position(argument) {
        Some(output) => output_failure(arguments, entry, output),
        None => invalid(None, argument),
    }
}

/// How the output of an algorithm, its last argument, fails: an iterator, or a container behind an appender.
pub fn output_fits(arguments: &Arguments, entry: &Entry) -> Option<Failure>
    ensures { (s : Situation) → Reads arguments.now s →
        told result ≡ first_failure (failures (entry_row entry.now) s needs.OutputFits) }
{
    let argument = arguments.count();
    match container_at(arguments.value(argument)) {
        Some(container) => each_range(
            arguments,
            entry.signature.letters,
            RangeTest::Filled {
                container,
                argument,
            },
        ),
        None => output_place_failure(arguments, entry),
    }
}
