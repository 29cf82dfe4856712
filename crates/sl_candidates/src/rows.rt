//! The rows of the library's table, by calls.

mod asked;
mod found;
mod meant;
mod questions;

pub use found::FoundRow;
pub use meant::{
    algorithm_row, assignment_row, constructor_row, list_constructor, member_row, subscript_row,
};
pub use questions::{
    form_member_changes, form_subscript_changes, has_algorithm, has_constructor, has_member,
    has_output, is_algorithm_name, member_kills, subscript_kills, writes_elements,
};
