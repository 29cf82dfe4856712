//! The constants of a program: 0, 1, each of its literals and its two neighbours.
#![tactic(auto)]

mod constant_list;
mod literals;

pub use constant_list::constants;
