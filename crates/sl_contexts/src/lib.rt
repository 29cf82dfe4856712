//! What is known at a place of a text, changed in place as the text is read.
#![tactic(auto)]

mod known;
mod names;
mod outside;
mod own_variable;
mod parameters;
mod variables;

pub use known::Known;
pub use outside::Outside;
