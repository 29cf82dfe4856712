//! The arguments of a call.
ghost use Rattle.std.specs.Prelude.{◌≡◌, ◌≤◌, ◌+◌, ◌-◌, ◌<◌, ℕ, List, map, length, slice_index_or};
ghost use Rattle.sl_base.specs.declared.scalar.Scalar.TheVariants as scalar;
ghost use Rattle.sl_model.specs.Memory.Containers.{Memory, cont_at, size};
ghost use Rattle.sl_model.specs.LibraryCalls.Situation as spec;
ghost use Rattle.sl_model.specs.LibraryCalls.Situation.{Situation};
ghost use Rattle.sl_slots.specs.Shown.{element_of, value_of};
ghost use Rattle.sl_arguments.specs.Readings.{Meets, Reads, placed};
ghost use Rattle.sl_arguments.specs.Means.Sorts.{forms_of};
ghost use Rattle.sl_arguments.specs.Means.Values.{shown_at};

use crate::numbers::{as_count, as_difference, as_int};
use crate::position::{Position, container_of, index_in, position_of};
use sl_base::Form;
use sl_slots::{Container, Element, Store, Value};

/// What a call meets: the containers, its object's number and its operands, which are its arguments from 1 on. The object
/// is argument 0.
#[derive(Clone, Copy)]
pub struct Arguments<'a> {
    containers: &'a [Container],
    values: &'a [Value],
    object: usize,
}

// A value among these, `Nothing` past the end.
fn value_at(values: &[Value], index: usize) -> Value
    ensures { result ≡ slice_index_or values.now index Value.Nothing }
{
    match values.get(index) {
        Some(value) => *value,
        None => Value::Nothing,
    }
}

// The elements of a container among these, none past the end.
fn elements_at<'a>(containers: &'a [Container], container: usize) -> &'a [Element]
    ensures { result.now ≡ (shown_at containers.now container).elements }
{
    match containers.get(container) {
        Some(container) => container.elements.as_slice(),
        None => &[],
    }
}

// The form of a container among these, that of a vector past the end.
fn form_at(containers: &[Container], container: usize) -> Form
    ensures { result ≡ (shown_at containers.now container).form }
{
    match containers.get(container) {
        Some(container) => container.form,
        None => Form::Vector,
    }
}

impl<'a> Arguments<'a> {
    /// The arguments of a call on an object: the operands that a store holds from `base` on. It takes no memory.
    pub fn of(store: &'a Store, base: usize, object: usize) -> Arguments<'a>
        requires { base ≤ length store.now.operands.items }
        ensures { (site : ℕ) (picks : List ℕ) (s : Situation) → Meets store.now base object site picks s → Reads result s }
    {
        Arguments {
            containers: store.containers.as_slice(),
            values: &store.operands[base..],
            object,
        }
    }

    /// The number of the object.
    pub fn object(&self) -> usize
        ensures { (s : Situation) → Reads self.now s → result ≡ s.object }
    {
        self.object
    }

    /// How many containers there are.
    pub fn containers(&self) -> usize
        ensures { (s : Situation) → Reads self.now s → result ≡ length s.memory.conts }
    {
        self.containers.len()
    }

    /// The arguments, from 1 on.
    pub fn values(&self) -> &'a [Value]
        ensures { result.now ≡ self.now.values.now }
    {
        self.values
    }

    /// How many arguments there are.
    pub fn count(&self) -> usize
        ensures { (s : Situation) → Reads self.now s → result ≡ length s.values }
    {
        self.values.len()
    }

    /// The argument with a number from 1 on, `Nothing` where there is none.
    pub fn value(&self, number: usize) -> Value
        ensures { (s : Situation) → Reads self.now s → result ≡ value_of s.memory (spec.argument s number) }
    {
        value_at(self.values, number.saturating_sub(1))
    }

    /// Where an argument stands, if it is a valid iterator.
    pub fn position(&self, number: usize) -> Option<Position>
        ensures { (s : Situation) → Reads self.now s → placed result ≡ spec.place_of s number }
    {
        position_of(self.value(number))
    }

    /// The index at which an argument stands, 0 where it is no valid iterator.
    pub fn index(&self, number: usize) -> usize
        ensures { (s : Situation) → Reads self.now s → result ≡ spec.index s number }
    {
        index_in(self.position(number))
    }

    /// The number of the container that an argument is or stands in, 0 where there is none.
    pub fn container(&self, number: usize) -> usize
        ensures { (s : Situation) → Reads self.now s → result ≡ spec.container_of s number }
    {
        container_of(self.value(number))
    }

    /// An argument as an `int`, 0 where it is no number.
    pub fn int(&self, number: usize) -> i128
        ensures { (s : Situation) → Reads self.now s → result ≡ spec.int_of s number }
    {
        as_int(self.value(number))
    }

    /// An argument as a `std::size_t`, 0 where it is no number.
    pub fn size_argument(&self, number: usize) -> usize
        ensures { (s : Situation) → Reads self.now s → result ≡ spec.count_of s number }
    {
        as_count(self.value(number))
    }

    /// The elements of the container with a number, none where it isn't there.
    pub fn elements(&self, container: usize) -> &'a [Element]
        ensures { (s : Situation) → Reads self.now s → result.now ≡ map element_of (cont_at s.memory container).cells }
    {
        elements_at(self.containers, container)
    }

    /// How many elements the container with a number has, 0 where it isn't there.
    pub fn size(&self, container: usize) -> usize
        ensures { (s : Situation) → Reads self.now s → result ≡ size (cont_at s.memory container) }
    {
        self.elements(container).len()
    }

    /// The form of the container with a number, if it is there.
    pub fn form_of(&self, container: usize) -> Option<Form>
        ensures { result ≡ forms_of self.now.containers.now container }
    {
        match self.containers.get(container) {
            Some(container) => Some(container.form),
            None => None,
        }
    }

    /// The form of the container with a number, that of a vector where it isn't there.
    pub fn form(&self, container: usize) -> Form
        ensures { (s : Situation) → Reads self.now s → result ≡ (cont_at s.memory container).form }
    {
        form_at(self.containers, container)
    }
}
