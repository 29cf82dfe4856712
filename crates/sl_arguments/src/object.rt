//! The object of a call.
ghost use Rattle.std.specs.Prelude.{◌≡◌, ◌≤◌, ℕ, List, length, Bool, if◌then◌else◌, slice_get};
ghost use Rattle.sl_specs.specs.Entries.{entry_row};
ghost use Rattle.sl_model.specs.LibraryCalls.Library as spec;
ghost use Rattle.sl_model.specs.LibraryCalls.Operands.{is_of_form};
ghost use Rattle.sl_model.specs.LibraryCalls.Rows as rows;
ghost use Rattle.sl_model.specs.LibraryCalls.Rows.{meaning_of};
ghost use Rattle.sl_model.specs.LibraryCalls.Situation.{Situation};
ghost use Rattle.sl_arguments.specs.Readings.{Meets, Reads};
ghost use Rattle.sl_arguments.specs.Objects.{object_of};

use crate::arguments::Arguments;
use crate::shape::is_form;
use sl_base::Form;
use sl_slots::Store;
use sl_specs::{Call, Entry};

/// What the object of a call is: a container of a form, a new one of a form, or the one that the first operand stands in.
#[derive(Clone, Copy)]
pub enum Object {
    OfForm(Form),
    NewOne(Form),
    OfFirst,
}

// Whether a call is a constructor.
fn is_constructor(call: Call) -> bool
    ensures { result ≡ rows.is_constructor call }
{
    matches!(call, Call::Constructor)
}

impl Object {
    // That of a call on a container of a form.
    fn of_member(form: Form, call: Call) -> Object
        ensures { object_of result ≡ (if rows.is_constructor call then rows.new_one form else rows.of_form form) }
    {
        if is_constructor(call) {
            Object::NewOne(form)
        } else {
            Object::OfForm(form)
        }
    }

    /// That of a row.
    pub fn of(entry: &Entry) -> Object
        ensures { (appends : Bool) → object_of result ≡ (meaning_of appends (entry_row entry.now)).object }
    {
        match entry.form {
            Some(form) => Object::of_member(form, entry.call),
            None => Object::OfFirst,
        }
    }
}

impl<'a> Arguments<'a> {
    // Whether the container with a number is of a form.
    fn is_of_form(&self, form: Form, container: usize) -> bool
        ensures { (s : Situation) → Reads self.now s → result ≡ is_of_form form (slice_get s.memory.conts container) }
    {
        is_form(self.form_of(container), form)
    }

    // The container with a number, where it is of a form.
    fn of_form(&self, form: Form, container: usize) -> Option<usize>
        ensures { (s : Situation) → Reads self.now s → result ≡ spec.object_in s.memory (rows.of_form form) (Some container) s.values }
    {
        if self.is_of_form(form, container) {
            Some(container)
        } else {
            None
        }
    }

    // The object of a call that names one or doesn't.
    fn object_given(&self, object: Object, given: Option<usize>) -> Option<usize>
        ensures { (s : Situation) → Reads self.now s → result ≡ spec.object_in s.memory (object_of object) given s.values }
    {
        match (object, given) {
            (Object::OfForm(form), Some(container)) => self.of_form(form, container),
            (Object::NewOne(_), None) => Some(self.containers()),
            (Object::OfFirst, None) => Some(self.container(1)),
            _ => None,
        }
    }
}

/// The number of the container on which a call is carried out, where it names one or doesn't and its operands stand from
/// `base` on, if there is one. It takes no memory.
pub fn object_in(store: &Store, base: usize, object: Object, given: Option<usize>) -> Option<usize>
    requires { base ≤ length store.now.operands.items }
    ensures { (site : ℕ) (picks : List ℕ) (s : Situation) → Meets store.now base s.object site picks s →
        result ≡ spec.object_in s.memory (object_of object) given s.values }
{
    Arguments::of(store, base, 0).object_given(object, given)
}
