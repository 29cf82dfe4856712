//! The row that a call means.
ghost use Rattle.std.specs.Prelude.{◌≡◌, option_map};
ghost use Rattle.sl_typing.specs.Candidates as spec;
ghost use Rattle.sl_candidates.specs.Found.{found_of};
ghost use Rattle.sl_candidates.specs.Means.Places as means;

use crate::rows::asked::{
    is_list_constructor, is_meant_algorithm, is_meant_constructor, is_meant_member, is_row_of,
};
use crate::rows::found::{FoundRow, found};
use sl_base::Form;
use sl_specs::{Call, Entry, entries};
use sl_typing::ExprType;

/// The row that a member call means, by its form, its name and the types of its arguments. It takes no memory.
pub fn member_row(form: Form, name: &[u8], types: &[ExprType]) -> Option<FoundRow>
    ensures { option_map found_of result ≡ spec.member_row form name.now types.now }
{
    found(member_place(entries(), form, name, types))
}

/// The row that a call of an algorithm means, where it appends to a container in place of writing to an output, or
/// doesn't. It takes no memory.
pub fn algorithm_row(appends: bool, name: &[u8], types: &[ExprType]) -> Option<FoundRow>
    ensures { option_map found_of result ≡ spec.algorithm_row appends name.now types.now }
{
    found(algorithm_place(entries(), appends, name, types))
}

/// The row of a form's `[ ]`. It takes no memory.
pub fn subscript_row(form: Form) -> Option<FoundRow>
    ensures { option_map found_of result ≡ spec.subscript_row form }
{
    found(place_of(entries(), form, Call::Subscript))
}

/// The row of `=` between two containers of a form. It takes no memory.
pub fn assignment_row(form: Form) -> Option<FoundRow>
    ensures { option_map found_of result ≡ spec.assignment_row form }
{
    found(place_of(entries(), form, Call::Assignment))
}

/// The constructor of a form from a list in braces. It takes no memory.
pub fn list_constructor(form: Form) -> Option<FoundRow>
    ensures { option_map found_of result ≡ spec.list_constructor form }
{
    found(list_place(entries(), form))
}

/// The constructor of a form from arguments of these types. It takes no memory.
pub fn constructor_row(form: Form, types: &[ExprType]) -> Option<FoundRow>
    ensures { option_map found_of result ≡ spec.constructor_row form types.now }
{
    found(constructor_place(entries(), form, types))
}

fn member_place(rows: &[Entry], form: Form, name: &[u8], types: &[ExprType]) -> Option<usize>
    ensures { result ≡ means.place_in rows.now (means.is_meant_member form name.now types.now) }
{
    rows.iter()
        .position(|entry| is_meant_member(entry, form, name, types))
}

fn algorithm_place(rows: &[Entry], appends: bool, name: &[u8], types: &[ExprType]) -> Option<usize>
    ensures { result ≡ means.place_in rows.now (means.is_meant_algorithm appends name.now types.now) }
{
    rows.iter()
        .position(|entry| is_meant_algorithm(entry, appends, name, types))
}

fn place_of(rows: &[Entry], form: Form, call: Call) -> Option<usize>
    ensures { result ≡ means.place_in rows.now (spec.is_row_of form call) }
{
    rows.iter().position(|entry| is_row_of(entry, form, call))
}

fn list_place(rows: &[Entry], form: Form) -> Option<usize>
    ensures { result ≡ means.place_in rows.now (means.is_list_constructor form) }
{
    rows.iter()
        .position(|entry| is_list_constructor(entry, form))
}

fn constructor_place(rows: &[Entry], form: Form, types: &[ExprType]) -> Option<usize>
    ensures { result ≡ means.place_in rows.now (means.is_meant_constructor form types.now) }
{
    rows.iter()
        .position(|entry| is_meant_constructor(entry, form, types))
}
