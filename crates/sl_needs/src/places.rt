//! Failures of iterators, by where they stand.
ghost use Rattle.std.specs.Prelude.{◌≡◌, ◌≢◌, ◌+◌, ◌<◌, ◌++◌, [], if◌then◌else◌, length};
ghost use Rattle.sl_model.specs.LibraryCalls.Needs as spec;
ghost use Rattle.sl_model.specs.LibraryCalls.Needs.{first_failure};
ghost use Rattle.sl_arguments.specs.Readings.{placed};
ghost use Rattle.sl_needs.specs.Failures.{told};

use crate::failure::{Failure, earlier, fails_if};
use sl_arguments::Position;
use sl_base::failures::{BAD_RANGE, END_ITERATOR, INVALID_ITERATOR, WRONG_CONTAINER};

/// Where an argument stands nowhere.
pub fn invalid(position: Option<Position>, argument: usize) -> Option<Failure>
    ensures { told result ≡ first_failure (spec.invalid_fails (placed position) argument) }
{
    fails_if(position.is_none(), INVALID_ITERATOR, argument)
}

/// Where an argument doesn't stand in the container with a number.
pub fn outside(container: usize, position: Option<Position>, argument: usize) -> Option<Failure>
    ensures { told result ≡ first_failure (spec.place_fails container (placed position) argument) }
{
    match position {
        None => invalid(position, argument),
        Some(at) => fails_if(at.container != container, WRONG_CONTAINER, argument),
    }
}

/// Where an argument doesn't stand on an element of the container with a number, which has so many.
pub fn no_element(
    container: usize,
    size: usize,
    position: Option<Position>,
    argument: usize,
) -> Option<Failure>
    ensures { told result ≡ first_failure (spec.element_fails container size (placed position) argument) }
{
    match position {
        None => invalid(position, argument),
        Some(at) => {
            if at.container == container {
                fails_if(at.index == size, END_ITERATOR, argument)
            } else {
                fails_if(true, WRONG_CONTAINER, argument)
            }
        }
    }
}

/// Where two arguments that stand in the container with a number are the wrong way round.
pub fn wrong_way(
    container: usize,
    first: Option<Position>,
    last: Option<Position>,
    argument: usize,
) -> Option<Failure>
    ensures { told result ≡ first_failure (spec.order_fails container (placed first) (placed last) argument) }
{
    match (first, last) {
        (Some(low), Some(high)) => {
            let inside = (low.container == container) & (high.container == container);
            fails_if(inside & (high.index < low.index), BAD_RANGE, argument)
        }
        _ => None,
    }
}

/// Where two arguments that stand somewhere stand in two containers.
pub fn apart(first: Option<Position>, second: Option<Position>, argument: usize) -> Option<Failure>
    requires { argument < usize.MAX }
    ensures { told result ≡ first_failure (spec.one_container_fails (placed first) (placed second) argument) }
{
    match (first, second) {
        (Some(p), Some(q)) => fails_if(p.container != q.container, WRONG_CONTAINER, argument + 1),
        _ => None,
    }
}

/// Where two arguments, the first with this number, are no range of the container with a number.
pub fn no_range(
    container: usize,
    first: Option<Position>,
    last: Option<Position>,
    argument: usize,
) -> Option<Failure>
    requires { argument < usize.MAX }
    ensures { told result ≡ first_failure (spec.range_fails container (placed first) (placed last) argument) }
{
    earlier(
        outside(container, first, argument),
        earlier(
            outside(container, last, argument + 1),
            wrong_way(container, first, last, argument),
        ),
    )
}

/// Where two arguments, the first with this number, stand nowhere or in two containers.
pub fn no_pair(first: Option<Position>, last: Option<Position>, argument: usize) -> Option<Failure>
    requires { argument < usize.MAX }
    ensures { told result ≡ first_failure (spec.invalid_fails (placed first) argument ++
        (spec.invalid_fails (placed last) (argument + 1) ++
        spec.one_container_fails (placed first) (placed last) argument)) }
{
    earlier(
        invalid(first, argument),
        earlier(invalid(last, argument + 1), apart(first, last, argument)),
    )
}

// Where two arguments are the wrong way round, unless they may be.
fn turned(
    any_way: bool,
    container: usize,
    first: Option<Position>,
    last: Option<Position>,
    argument: usize,
) -> Option<Failure>
    ensures { told result ≡ first_failure (if any_way then [] else spec.order_fails container (placed first) (placed last) argument) }
{
    if any_way {
        None
    } else {
        wrong_way(container, first, last, argument)
    }
}

/// Where two arguments, the first with this number and in the container with a number, are no range of one container; they
/// may be the wrong way round, or not.
pub fn no_one_range(
    any_way: bool,
    container: usize,
    first: Option<Position>,
    last: Option<Position>,
    argument: usize,
) -> Option<Failure>
    requires { argument < usize.MAX }
    ensures { told result ≡ first_failure (spec.invalid_fails (placed first) argument ++
        (spec.invalid_fails (placed last) (argument + 1) ++
        (spec.one_container_fails (placed first) (placed last) argument ++
        (if any_way then [] else spec.order_fails container (placed first) (placed last) argument)))) }
{
    earlier(
        invalid(first, argument),
        earlier(
            invalid(last, argument + 1),
            earlier(
                apart(first, last, argument),
                turned(any_way, container, first, last, argument),
            ),
        ),
    )
}
