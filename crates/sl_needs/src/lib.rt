//! The needs of a call of the library: by which failure it ends, if one of them fails.
#![tactic(auto)]

mod failure;
mod forms;
mod letters;
mod moves;
mod needs;
mod operators;
mod orders;
mod output;
mod places;
mod range_test;
mod ranges;
mod row;
mod written;

pub use failure::Failure;
pub use operators::operator_failure;
pub use row::row_failure;
