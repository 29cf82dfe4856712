//! Statements and blocks that break no rule, typed.
#![tactic(auto)]

mod heads;
mod lines;
mod statements;

pub use statements::block;
