//! What is asked of the calls of a name.
ghost use Rattle.std.specs.Prelude.{◌≡◌, Some, None};
ghost use Rattle.sl_typing.specs.Candidates as spec;
ghost use Rattle.sl_typing.specs.Order as order;
ghost use Rattle.sl_candidates.specs.Means.Places as means;

use crate::rows::asked::{
    is_called, is_candidate, is_changing_candidate, is_constructor_of, is_killing_candidate,
    is_output_candidate, is_writing_candidate, row_kills,
};
use crate::rows::meant::subscript_row;
use sl_base::Form;
use sl_specs::{Entry, entries};

/// Whether a form has a member of this name that takes so many arguments. It takes no memory.
pub fn has_member(form: Form, name: &[u8], count: usize) -> bool
    ensures { result ≡ spec.has_member form name.now count }
{
    some_member(entries(), form, name, count)
}

fn some_member(rows: &[Entry], form: Form, name: &[u8], count: usize) -> bool
    ensures { result ≡ means.some_in rows.now (spec.is_candidate (Some form) name.now count) }
{
    rows.iter()
        .any(|entry| is_candidate(entry, Some(form), name, count))
}

/// Whether there is an algorithm of this name that takes so many arguments. It takes no memory.
pub fn has_algorithm(name: &[u8], count: usize) -> bool
    ensures { result ≡ spec.has_algorithm name.now count }
{
    some_algorithm(entries(), name, count)
}

fn some_algorithm(rows: &[Entry], name: &[u8], count: usize) -> bool
    ensures { result ≡ means.some_in rows.now (spec.is_candidate None name.now count) }
{
    rows.iter()
        .any(|entry| is_candidate(entry, None, name, count))
}

/// Whether an algorithm of this name that takes so many arguments has an output, which is its last. It takes no memory.
pub fn has_output(name: &[u8], count: usize) -> bool
    ensures { result ≡ spec.has_output name.now count }
{
    some_output(entries(), name, count)
}

fn some_output(rows: &[Entry], name: &[u8], count: usize) -> bool
    ensures { result ≡ means.some_in rows.now (means.is_output_candidate name.now count) }
{
    rows.iter()
        .any(|entry| is_output_candidate(entry, name, count))
}

/// Whether some member of a form with this name and number of arguments may invalidate something. It takes no memory.
pub fn member_kills(form: Form, name: &[u8], count: usize) -> bool
    ensures { result ≡ spec.member_kills form name.now count }
{
    some_killing(entries(), form, name, count)
}

fn some_killing(rows: &[Entry], form: Form, name: &[u8], count: usize) -> bool
    ensures { result ≡ means.some_in rows.now (means.is_killing_candidate form name.now count) }
{
    rows.iter()
        .any(|entry| is_killing_candidate(entry, form, name, count))
}

/// Whether some member of a form with this name and number of arguments changes its object. It takes no memory.
pub fn form_member_changes(form: Form, name: &[u8], count: usize) -> bool
    ensures { result ≡ spec.form_member_changes form name.now count }
{
    some_changing(entries(), form, name, count)
}

fn some_changing(rows: &[Entry], form: Form, name: &[u8], count: usize) -> bool
    ensures { result ≡ means.some_in rows.now (means.is_changing_candidate form name.now count) }
{
    rows.iter()
        .any(|entry| is_changing_candidate(entry, form, name, count))
}

/// Whether a form has a constructor from so many arguments in parentheses. It takes no memory.
pub fn has_constructor(form: Form, count: usize) -> bool
    ensures { result ≡ spec.has_row (spec.is_constructor_of form count) }
{
    some_constructor(entries(), form, count)
}

fn some_constructor(rows: &[Entry], form: Form, count: usize) -> bool
    ensures { result ≡ means.some_in rows.now (spec.is_constructor_of form count) }
{
    rows.iter()
        .any(|entry| is_constructor_of(entry, form, count))
}

/// Whether it is the name of an algorithm. It takes no memory.
pub fn is_algorithm_name(name: &[u8]) -> bool
    ensures { result ≡ spec.is_algorithm_name name.now }
{
    some_called(entries(), name)
}

fn some_called(rows: &[Entry], name: &[u8]) -> bool
    ensures { result ≡ means.some_in rows.now (spec.is_called None name.now) }
{
    rows.iter().any(|entry| is_called(entry, None, name))
}

/// Whether an algorithm of this name that takes so many arguments writes elements. It takes no memory.
pub fn writes_elements(name: &[u8], count: usize) -> bool
    ensures { result ≡ order.writes_elements name.now count }
{
    some_writing(entries(), name, count)
}

fn some_writing(rows: &[Entry], name: &[u8], count: usize) -> bool
    ensures { result ≡ means.some_in rows.now (means.is_writing_candidate name.now count) }
{
    rows.iter()
        .any(|entry| is_writing_candidate(entry, name, count))
}

/// Whether a form's `[ ]` may invalidate something. It takes no memory.
pub fn subscript_kills(form: Form) -> bool
    ensures { result ≡ spec.subscript_kills form }
{
    match subscript_row(form) {
        Some(row) => row_kills(&row.entry),
        None => false,
    }
}

/// Whether a form's `[ ]` changes its object. It takes no memory.
pub fn form_subscript_changes(form: Form) -> bool
    ensures { result ≡ spec.form_subscript_changes form }
{
    match subscript_row(form) {
        Some(row) => row.entry.signature.changes,
        None => false,
    }
}
