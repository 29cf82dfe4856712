//! The first rule that a program breaks.
#![tactic(auto)]

mod declaration;
mod effect;
mod expression;
mod faults;
mod function;
mod heads;
mod initializer;
mod jumps;
mod parameters;
mod statement;
mod stop;
mod variables;

pub use function::first_fault;
