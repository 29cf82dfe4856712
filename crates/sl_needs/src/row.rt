//! By which failure a call of the table ends.
ghost use Rattle.std.specs.Prelude.{◌≡◌, Bool};
ghost use Rattle.sl_specs.specs.Entries.{entry_row};
ghost use Rattle.sl_model.specs.LibraryCalls.Needs.{first_failure, failures};
ghost use Rattle.sl_model.specs.LibraryCalls.Rows.{meaning_of};
ghost use Rattle.sl_model.specs.LibraryCalls.Situation.{Situation};
ghost use Rattle.sl_arguments.specs.Readings.{Reads};
ghost use Rattle.sl_needs.specs.Failures.{told};

use crate::failure::{Failure, earlier};
use crate::needs::{
    both_sorted, erasable_position, foreign_range, index_in_size, movable, not_empty, one_range,
    other_container, partitioned_above, partitioned_below, position_in_object, range_in_object,
    ranges_sorted, spliced_element, spliced_range,
};
use crate::output::output_fits;
use sl_arguments::Arguments;
use sl_specs::{Entry, Need};

// The first failure of a need of a row.
fn need_failure(arguments: &Arguments, entry: &Entry, need: Need) -> Option<Failure>
    ensures { (s : Situation) → Reads arguments.now s →
        told result ≡ first_failure (failures (entry_row entry.now) s need) }
{
    match need {
        Need::PositionInObject => position_in_object(arguments),
        Need::ErasablePosition => erasable_position(arguments),
        Need::RangeInObject => range_in_object(arguments),
        Need::OneRange => one_range(arguments, entry),
        Need::ForeignRange => foreign_range(arguments, entry),
        Need::NotEmpty => not_empty(arguments),
        Need::IndexInSize => index_in_size(arguments),
        Need::OtherContainer => other_container(arguments),
        Need::SplicedElement => spliced_element(arguments),
        Need::SplicedRange => spliced_range(arguments),
        Need::BothSorted => both_sorted(arguments),
        Need::PartitionedBelow => partitioned_below(arguments),
        Need::PartitionedAbove => partitioned_above(arguments),
        Need::RangesSorted => ranges_sorted(arguments, entry),
        Need::OutputFits => output_fits(arguments, entry),
        Need::Movable => movable(arguments, entry),
    }
}

/// The failure by which a call of a row ends, if a need fails: the one of least kind, and of one kind the one of least
/// argument. It takes no memory.
pub fn row_failure(arguments: &Arguments, entry: &Entry) -> Option<Failure>
    ensures { (s : Situation) (appends : Bool) → Reads arguments.now s →
        told result ≡ first_failure ((meaning_of appends (entry_row entry.now)).fails s) }
{
    let mut failure = None;
    for need in entry.needs {
        failure = earlier(failure, need_failure(arguments, entry, *need));
    }
    failure
}
