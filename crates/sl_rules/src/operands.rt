//! Operators and pieces, and what they stand at.

mod assignments;
pub mod elements;
pub mod operators;
pub mod parts;

pub use assignments::{assigns_const, assigns_weaker, wrong_assignment};
