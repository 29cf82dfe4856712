//! The literals of a program, in the order of the text: `true` is 1 and `false` is 0.

mod effect;
mod expr;
mod function;
mod statement;

pub use function::push_program;
