//! What names mean at a place of a text, and how many variables may be in scope there.
#![tactic(auto)]

pub mod names;
pub mod parameters;
pub mod sorts;

pub use sorts::Sort;
