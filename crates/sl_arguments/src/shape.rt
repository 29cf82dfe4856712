//! Which values an argument may be.
ghost use Rattle.std.specs.Prelude.{◌≡◌, ◌<◌, map, option_map, slice_get, Option};
ghost use Rattle.sl_specs.specs.Forms as forms;
ghost use Rattle.sl_model.specs.LibraryCalls.Operands as operands;
ghost use Rattle.sl_arguments.specs.Means.Sorts as spec;
ghost use Rattle.sl_arguments.specs.Means.Sorts.{is_shown, forms_of, first_sort};

use crate::arguments::Arguments;
use crate::position::{container_at, position_of};
use sl_base::Form;
use sl_slots::Value;
use sl_specs::Letter;

// Whether a form's elements are known by keys.
fn is_keyed(form: Form) -> bool
    ensures { result ≡ forms.is_keyed form }
{
    !matches!(form, Form::Vector | Form::Deque | Form::List)
}

/// Whether a value is a number.
pub fn is_number(value: Value) -> bool
    ensures { result ≡ spec.number_test value }
{
    matches!(value, Value::Number(_))
}

/// Whether a value is an iterator.
pub fn is_iterator(value: Value) -> bool
    ensures { result ≡ spec.iterator_test value }
{
    matches!(value, Value::Iterator(_))
}

/// Whether a form that there may be is another one.
pub fn is_form(own: Option<Form>, form: Form) -> bool
    ensures { result ≡ spec.is_form own form }
{
    match own {
        Some(own) => own as u8 == form as u8,
        None => false,
    }
}

// Whether a form that there may be is one of sequences.
fn is_sequence(own: Option<Form>) -> bool
    ensures { result ≡ spec.is_sequence_form own }
{
    match own {
        Some(own) => !is_keyed(own),
        None => false,
    }
}

impl<'a> Arguments<'a> {
    // Whether a value is an iterator, and none that stands in a set or map.
    fn is_writer(&self, value: Value) -> bool
        ensures { result ≡ is_shown (forms_of self.now.containers.now) operands.a_writer value }
    {
        let open = match position_of(value) {
            Some(at) => is_sequence(self.form_of(at.container)),
            None => true,
        };
        is_iterator(value) & open
    }

    // Whether a value is a container of a form.
    fn is_container(&self, form: Form, value: Value) -> bool
        ensures { result ≡ is_shown (forms_of self.now.containers.now) (operands.a_container form) value }
    {
        match container_at(value) {
            Some(container) => is_form(self.form_of(container), form),
            None => false,
        }
    }

    // Whether a value is a sequence.
    fn is_sequence(&self, value: Value) -> bool
        ensures { result ≡ is_shown (forms_of self.now.containers.now) operands.a_sequence value }
    {
        match container_at(value) {
            Some(container) => is_sequence(self.form_of(container)),
            None => false,
        }
    }

    // Whether a value is an output: a sequence behind an appender, else an iterator that may be written through.
    fn is_output(&self, appends: bool, value: Value) -> bool
        ensures { result ≡ is_shown (forms_of self.now.containers.now) (spec.output_sort appends) value }
    {
        if appends {
            self.is_sequence(value)
        } else {
            self.is_writer(value)
        }
    }

    /// Whether a value is what the first argument of a letter may be, in a call on a form.
    pub fn is_first(&self, form: Form, appends: bool, letter: Letter, value: Value) -> bool
        ensures { result ≡ is_shown (forms_of self.now.containers.now) (first_sort form appends letter) value }
    {
        match letter {
            Letter::Position
            | Letter::SplicedPosition
            | Letter::OwnRange
            | Letter::IntRange
            | Letter::SecondIntRange
            | Letter::AnyRange
            | Letter::IteratorVariable
            | Letter::Iterator
            | Letter::BidirectionalIterator => is_iterator(value),
            Letter::WrittenRange | Letter::RandomAccessRange => self.is_writer(value),
            Letter::Container | Letter::ChangedContainer => self.is_container(form, value),
            Letter::AppendedContainer => self.is_sequence(value),
            Letter::Output => self.is_output(appends, value),
            Letter::InitializerList => false,
            _ => is_number(value),
        }
    }
}
