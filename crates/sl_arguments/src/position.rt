//! Where iterators stand.
ghost use Rattle.std.specs.Prelude.{◌≡◌};
ghost use Rattle.sl_model.specs.LibraryCalls.Situation as spec;
ghost use Rattle.sl_arguments.specs.Readings.{placed};
ghost use Rattle.sl_arguments.specs.Means.Values.{place_shown, container_shown, appended_shown};

use sl_slots::{Slot, Value};

/// Where a valid iterator stands: the number of its container and its index there, which is the size at the end.
#[derive(Clone, Copy)]
pub struct Position {
    pub container: usize,
    pub index: usize,
}

/// Where a value stands, if it is a valid iterator.
pub fn position_of(value: Value) -> Option<Position>
    ensures { placed result ≡ place_shown value }
{
    match value {
        Value::Iterator(Slot::Stands { container, place }) => Some(Position {
            container,
            index: place,
        }),
        _ => None,
    }
}

/// The index of a position, 0 where there is none.
pub fn index_in(position: Option<Position>) -> usize
    ensures { result ≡ spec.index_in (placed position) }
{
    match position {
        Some(position) => position.index,
        None => 0,
    }
}

/// The container of a position, 0 where there is none.
pub fn container_in(position: Option<Position>) -> usize
    ensures { result ≡ spec.container_in (placed position) }
{
    match position {
        Some(position) => position.container,
        None => 0,
    }
}

/// The container that a value is or stands in, 0 where there is none.
pub fn container_of(value: Value) -> usize
    ensures { result ≡ container_shown value }
{
    match value {
        Value::ContainerAt(container) => container,
        _ => container_in(position_of(value)),
    }
}

/// The container that a value is.
pub fn container_at(value: Value) -> Option<usize>
    ensures { result ≡ appended_shown value }
{
    match value {
        Value::ContainerAt(container) => Some(container),
        _ => None,
    }
}
