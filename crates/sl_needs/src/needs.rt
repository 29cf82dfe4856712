//! Which needs of a row fail.
ghost use Rattle.std.specs.Prelude.{◌≡◌, Bool};
ghost use Rattle.sl_specs.specs.Entries.{entry_row};
ghost use Rattle.sl_specs.specs.Rows.{Row};
ghost use Rattle.sl_specs.specs.declared.need.Need.TheVariants as needs;
ghost use Rattle.sl_model.specs.Memory.Containers.{cont_at, keys};
ghost use Rattle.sl_model.specs.Memory.Orders as orders;
ghost use Rattle.sl_model.specs.LibraryCalls.Needs as spec;
ghost use Rattle.sl_model.specs.LibraryCalls.Needs.{first_failure, failures};
ghost use Rattle.sl_model.specs.LibraryCalls.Rows.{meaning_of};
ghost use Rattle.sl_model.specs.LibraryCalls.Situation.{Situation, int_of};
ghost use Rattle.sl_needs.specs.declared.orders.Bound.TheVariants as bounds;
ghost use Rattle.sl_arguments.specs.Readings.{Reads};
ghost use Rattle.sl_needs.specs.Failures.{told};
ghost use Rattle.sl_needs.specs.Means.Bounds.{is_within};

use crate::failure::{Failure, earlier, fails_if};
use crate::forms::is_random_access;
use crate::letters::{first_range, may_go_back};
use crate::moves::{movable_failure, steps_of};
use crate::orders::{Bound, is_ascending, is_partitioned};
use crate::places::{no_element, no_range, outside};
use crate::range_test::{RangeTest, each_range};
use crate::ranges::{is_valid_range, range_failure, valid_range};
use sl_arguments::Arguments;
use sl_base::failures::{
    EMPTY_CONTAINER, NOT_PARTITIONED, NOT_SORTED, OUT_OF_RANGE, OVERLAP, OWN_ELEMENTS,
};
use sl_specs::{Entry, Need};

// Whether the position, argument 1, stands in the range that begins at argument 3.
fn is_position_inside(arguments: &Arguments) -> bool
    ensures { (s : Situation) → Reads arguments.now s → result ≡ spec.is_position_inside s }
{
    (arguments.index(3) <= arguments.index(1)) & (arguments.index(1) < arguments.index(4))
}

// Whether the elements of the container with a number are in order.
fn is_in_order(arguments: &Arguments, container: usize) -> bool
    ensures { (s : Situation) → Reads arguments.now s → result ≡ orders.is_ascending (keys (cont_at s.memory container)) }
{
    is_ascending(arguments.elements(container))
}

// The keys below an argument.
fn below(arguments: &Arguments, number: usize) -> Bound
    ensures { (s : Situation) → Reads arguments.now s → result ≡ bounds.Below (int_of s number) }
{
    Bound::Below(arguments.int(number))
}

// The keys up to an argument.
fn up_to(arguments: &Arguments, number: usize) -> Bound
    ensures { (s : Situation) → Reads arguments.now s → result ≡ bounds.UpTo (int_of s number) }
{
    Bound::UpTo(arguments.int(number))
}

// Whether in the range that begins at argument 1 the elements within a bound come first.
fn is_range_partitioned(arguments: &Arguments, bound: Bound) -> bool
    ensures { (s : Situation) → Reads arguments.now s →
        result ≡ orders.is_partitioned (is_within bound) (spec.valid_keys s 1) }
{
    is_partitioned(valid_range(arguments, 1), bound)
}

pub fn position_in_object(arguments: &Arguments) -> Option<Failure>
    ensures { (s : Situation) (r : Row) → Reads arguments.now s →
        told result ≡ first_failure (failures r s needs.PositionInObject) }
{
    outside(arguments.object(), arguments.position(1), 1)
}

pub fn erasable_position(arguments: &Arguments) -> Option<Failure>
    ensures { (s : Situation) (r : Row) → Reads arguments.now s →
        told result ≡ first_failure (failures r s needs.ErasablePosition) }
{
    let object = arguments.object();
    no_element(object, arguments.size(object), arguments.position(1), 1)
}

pub fn range_in_object(arguments: &Arguments) -> Option<Failure>
    ensures { (s : Situation) (r : Row) → Reads arguments.now s →
        told result ≡ first_failure (failures r s needs.RangeInObject) }
{
    no_range(
        arguments.object(),
        arguments.position(1),
        arguments.position(2),
        1,
    )
}

pub fn one_range(arguments: &Arguments, entry: &Entry) -> Option<Failure>
    ensures { (s : Situation) → Reads arguments.now s →
        told result ≡ first_failure (failures (entry_row entry.now) s needs.OneRange) }
{
    let any_way = may_go_back(entry.signature.letters)
        & is_random_access(arguments.form(arguments.object()));
    each_range(
        arguments,
        entry.signature.letters,
        RangeTest::Invalid { any_way },
    )
}

pub fn foreign_range(arguments: &Arguments, entry: &Entry) -> Option<Failure>
    ensures { (s : Situation) → Reads arguments.now s →
        told result ≡ first_failure (failures (entry_row entry.now) s needs.ForeignRange) }
{
    let first = first_range(entry.signature.letters);
    let own = is_valid_range(arguments, first) & (arguments.container(first) == arguments.object());
    earlier(
        range_failure(arguments, false, first),
        fails_if(own, OWN_ELEMENTS, first),
    )
}

pub fn not_empty(arguments: &Arguments) -> Option<Failure>
    ensures { (s : Situation) (r : Row) → Reads arguments.now s →
        told result ≡ first_failure (failures r s needs.NotEmpty) }
{
    fails_if(arguments.size(arguments.object()) == 0, EMPTY_CONTAINER, 0)
}

pub fn index_in_size(arguments: &Arguments) -> Option<Failure>
    ensures { (s : Situation) (r : Row) → Reads arguments.now s →
        told result ≡ first_failure (failures r s needs.IndexInSize) }
{
    fails_if(
        arguments.size(arguments.object()) <= arguments.size_argument(1),
        OUT_OF_RANGE,
        0,
    )
}

pub fn other_container(arguments: &Arguments) -> Option<Failure>
    ensures { (s : Situation) (r : Row) → Reads arguments.now s →
        told result ≡ first_failure (failures r s needs.OtherContainer) }
{
    fails_if(
        arguments.container(2) == arguments.object(),
        OWN_ELEMENTS,
        2,
    )
}

pub fn spliced_element(arguments: &Arguments) -> Option<Failure>
    ensures { (s : Situation) (r : Row) → Reads arguments.now s →
        told result ≡ first_failure (failures r s needs.SplicedElement) }
{
    let container = arguments.container(2);
    no_element(
        container,
        arguments.size(container),
        arguments.position(3),
        3,
    )
}

pub fn spliced_range(arguments: &Arguments) -> Option<Failure>
    ensures { (s : Situation) (r : Row) → Reads arguments.now s →
        told result ≡ first_failure (failures r s needs.SplicedRange) }
{
    let own = is_valid_range(arguments, 3) & (arguments.container(2) == arguments.object());
    earlier(
        no_range(
            arguments.container(2),
            arguments.position(3),
            arguments.position(4),
            3,
        ),
        fails_if(own & is_position_inside(arguments), OVERLAP, 1),
    )
}

pub fn both_sorted(arguments: &Arguments) -> Option<Failure>
    ensures { (s : Situation) (r : Row) → Reads arguments.now s →
        told result ≡ first_failure (failures r s needs.BothSorted) }
{
    let own = is_in_order(arguments, arguments.object());
    let other = is_in_order(arguments, arguments.container(1));
    earlier(
        fails_if(!own, NOT_SORTED, 0),
        fails_if(!other, NOT_SORTED, 1),
    )
}

pub fn partitioned_below(arguments: &Arguments) -> Option<Failure>
    ensures { (s : Situation) (r : Row) → Reads arguments.now s →
        told result ≡ first_failure (failures r s needs.PartitionedBelow) }
{
    let below = is_range_partitioned(arguments, below(arguments, 3));
    fails_if(!below, NOT_PARTITIONED, 1)
}

pub fn partitioned_above(arguments: &Arguments) -> Option<Failure>
    ensures { (s : Situation) (r : Row) → Reads arguments.now s →
        told result ≡ first_failure (failures r s needs.PartitionedAbove) }
{
    let up_to = is_range_partitioned(arguments, up_to(arguments, 3));
    fails_if(!up_to, NOT_PARTITIONED, 1)
}

pub fn ranges_sorted(arguments: &Arguments, entry: &Entry) -> Option<Failure>
    ensures { (s : Situation) → Reads arguments.now s →
        told result ≡ first_failure (failures (entry_row entry.now) s needs.RangesSorted) }
{
    each_range(arguments, entry.signature.letters, RangeTest::Unsorted)
}

pub fn movable(arguments: &Arguments, entry: &Entry) -> Option<Failure>
    ensures { (s : Situation) → Reads arguments.now s →
        told result ≡ first_failure (failures (entry_row entry.now) s needs.Movable) }
{
    movable_failure(arguments, steps_of(arguments, entry.call))
}
