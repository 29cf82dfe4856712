//! Which row of the library's table a call means, and what letters of a row take.
#![tactic(auto)]

mod letters;
mod rows;

pub use letters::{
    ends_in_output, first_type, last_type, letters_are_weak, letters_take, letters_write_const,
    seen_letter, takes_count, takes_list, width,
};
pub use rows::{
    FoundRow, algorithm_row, assignment_row, constructor_row, form_member_changes,
    form_subscript_changes, has_algorithm, has_constructor, has_member, has_output,
    is_algorithm_name, list_constructor, member_kills, member_row, subscript_kills, subscript_row,
    writes_elements,
};
