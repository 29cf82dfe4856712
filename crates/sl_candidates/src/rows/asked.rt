//! What is asked of a row.
ghost use Rattle.std.specs.Prelude.{◌≡◌};
ghost use Rattle.sl_specs.specs.Forms as forms;
ghost use Rattle.sl_specs.specs.Table as table;
ghost use Rattle.sl_specs.specs.Entries.{entry_row};
ghost use Rattle.sl_typing.specs.Candidates as spec;
ghost use Rattle.sl_candidates.specs.Means.Places as means;

use crate::letters::{ends_in_output, letters_take, some_written, takes_count, takes_list};
use sl_base::Form;
use sl_specs::{Call, Class, Entry};
use sl_typing::{ExprType, same_form};

// Whether both are one form, or both are of an algorithm, which has none.
fn same_object(x: Option<Form>, y: Option<Form>) -> bool
    ensures { result ≡ forms.same_object x y }
{
    match (x, y) {
        (None, None) => true,
        (Some(x), Some(y)) => same_form(x, y),
        _ => false,
    }
}

// Whether two calls are one.
fn same_call(x: Call, y: Call) -> bool
    ensures { result ≡ table.same_call x y }
{
    x as u8 == y as u8
}

// Whether a text calls it by a name: not what a declaration calls, nor `=` and `[ ]`.
fn is_named(call: Call) -> bool
    ensures { result ≡ spec.is_named call }
{
    !matches!(call, Call::Constructor | Call::Assignment | Call::Subscript)
}

// Whether the row is one of a call of this name, of a form or of an algorithm.
pub fn is_called(entry: &Entry, form: Option<Form>, name: &[u8]) -> bool
    ensures { result ≡ spec.is_called form name.now (entry_row entry.now) }
{
    same_object(entry.form, form) & is_named(entry.call) & (entry.call.text().as_bytes() == name)
}

// Whether it also takes so many arguments.
pub fn is_candidate(entry: &Entry, form: Option<Form>, name: &[u8], count: usize) -> bool
    ensures { result ≡ spec.is_candidate form name.now count (entry_row entry.now) }
{
    is_called(entry, form, name) & takes_count(entry.signature.letters, count)
}

// Whether the row is this call of a form.
pub fn is_row_of(entry: &Entry, form: Form, call: Call) -> bool
    ensures { result ≡ spec.is_row_of form call (entry_row entry.now) }
{
    same_object(entry.form, Some(form)) & same_call(entry.call, call)
}

// Whether the row is a constructor of a form from so many arguments in parentheses.
pub fn is_constructor_of(entry: &Entry, form: Form, count: usize) -> bool
    ensures { result ≡ spec.is_constructor_of form count (entry_row entry.now) }
{
    is_row_of(entry, form, Call::Constructor) & takes_count(entry.signature.letters, count)
}

// Whether a member call means the row, if it means no earlier one.
pub fn is_meant_member(entry: &Entry, form: Form, name: &[u8], types: &[ExprType]) -> bool
    ensures { result ≡ means.is_meant_member form name.now types.now (entry_row entry.now) }
{
    is_candidate(entry, Some(form), name, types.len())
        & letters_take(form, false, entry.signature.letters, types)
}

// So of a call of an algorithm.
pub fn is_meant_algorithm(entry: &Entry, appends: bool, name: &[u8], types: &[ExprType]) -> bool
    ensures { result ≡ means.is_meant_algorithm appends name.now types.now (entry_row entry.now) }
{
    is_candidate(entry, None, name, types.len())
        & letters_take(Form::Vector, appends, entry.signature.letters, types)
}

// So of a container that is made from a list.
pub fn is_list_constructor(entry: &Entry, form: Form) -> bool
    ensures { result ≡ means.is_list_constructor form (entry_row entry.now) }
{
    is_row_of(entry, form, Call::Constructor) & takes_list(entry.signature.letters)
}

// So of one that is made from arguments.
pub fn is_meant_constructor(entry: &Entry, form: Form, types: &[ExprType]) -> bool
    ensures { result ≡ means.is_meant_constructor form types.now (entry_row entry.now) }
{
    is_constructor_of(entry, form, types.len())
        & letters_take(form, false, entry.signature.letters, types)
}

// Whether it is an algorithm that has an output.
pub fn is_output_candidate(entry: &Entry, name: &[u8], count: usize) -> bool
    ensures { result ≡ means.is_output_candidate name.now count (entry_row entry.now) }
{
    is_candidate(entry, None, name, count) & ends_in_output(entry.signature.letters)
}

// Whether the row may invalidate something.
pub fn row_kills(entry: &Entry) -> bool
    ensures { result ≡ means.kills_some (entry_row entry.now) }
{
    class_kills(entry.kills)
}

fn class_kills(class: Class) -> bool
    ensures { result ≡ means.class_kills class }
{
    !matches!(class, Class::Nothing)
}

// Whether it is a member that may invalidate something.
pub fn is_killing_candidate(entry: &Entry, form: Form, name: &[u8], count: usize) -> bool
    ensures { result ≡ means.is_killing_candidate form name.now count (entry_row entry.now) }
{
    is_candidate(entry, Some(form), name, count) & row_kills(entry)
}

// Whether it is a member that changes its object.
pub fn is_changing_candidate(entry: &Entry, form: Form, name: &[u8], count: usize) -> bool
    ensures { result ≡ means.is_changing_candidate form name.now count (entry_row entry.now) }
{
    is_candidate(entry, Some(form), name, count) & entry.signature.changes
}

// Whether it is an algorithm that writes elements.
pub fn is_writing_candidate(entry: &Entry, name: &[u8], count: usize) -> bool
    ensures { result ≡ means.is_writing_candidate name.now count (entry_row entry.now) }
{
    is_candidate(entry, None, name, count) & some_written(entry.signature.letters)
}
