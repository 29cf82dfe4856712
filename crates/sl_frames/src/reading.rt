//! Numbers that are read.
ghost use Rattle.std.specs.Prelude.{◌≡◌, List, length, slice_get};
ghost use Rattle.sl_base.specs.declared.place.Place.{Place as PlaceData};
ghost use Rattle.sl_model.specs.LibraryCalls.Values.{Value as ValueData};
ghost use Rattle.sl_model.specs.Runs.Eval.{read_at};
ghost use Rattle.sl_model.specs.Runs.State.{State};
ghost use Rattle.sl_slots.specs.Shown.{value_of};
ghost use Rattle.sl_slots.specs.Stored.{elements_at};
ghost use Rattle.sl_frames.specs.Followed.{Follows, FitsRead};
ghost use Rattle.sl_frames.specs.Changed.{as_number, element_number, number_in, value_read};

use crate::variables::Variables;
use sl_slots::{Element, Part, Store, Value};

impl Variables {
    /// What a place holds: the number of a scalar or of an element, and any other value itself. None is an unset
    /// scalar. An element that isn't there counts as 0.
    pub fn read(&self, place: Value) -> Option<Value>
        ensures value { result ≡ value_read self.now place }
        ensures shows { (s : State) (held : List ValueData) (v : ValueData) (at : PlaceData) → Follows self.now s held →
            value_of s.memory v ≡ place → FitsRead at result s (read_at at v s) }
    {
        match place {
            Value::ScalarAt(location) => numbered(self.number(location)),
            Value::ElementAt {
                container,
                place,
                part,
            } => Some(element_value(&self.store, container, place, part)),
            _ => Some(place),
        }
    }
}

// A number as a value.
fn numbered(number: Option<i128>) -> Option<Value>
    ensures { result ≡ as_number number }
{
    match number {
        None => None,
        Some(number) => Some(Value::Number(number)),
    }
}

// The number of an element, as a value.
fn element_value(store: &Store, container: usize, place: usize, part: Part) -> Value
    ensures { result ≡ element_number store.now container place part }
{
    match find_element(store, container, place) {
        None => Value::Number(0),
        Some(element) => Value::Number(i128::from(element.number(part))),
    }
}

// The element at a place of a container, where it is there.
fn find_element(store: &Store, container: usize, place: usize) -> Option<Element>
    ensures { result ≡ slice_get (elements_at store.now container) place }
{
    if container >= store.containers.len() {
        return None;
    }
    if place >= store.size(container) {
        return None;
    }
    Some(store.get(container, place))
}
