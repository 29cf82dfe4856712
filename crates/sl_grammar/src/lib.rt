//! How tokens are read as a program: a cursor over them, the operators that words are, and the reader as a definition,
//! which reads by the first word of each part, with its laws. What it reads is a program that follows the grammar; each
//! such program is read; and where it stops, no such program goes on.
#![tactic(auto)]

mod fault;
mod laws;
mod operators;
mod tokens;

pub use fault::Fault;
pub use laws::{one_program, one_shape};
pub use operators::{assignment_of, binary_level, goes_on, infix_of};
pub use tokens::Tokens;
