//! At one place of a typed text one node asks, and its literals are small, since each of its words is a token: laws of
//! the definitions alone.
#![tactic(auto)]

mod laws;

pub use laws::{one_asker, own_places, small_literals, small_numbers};
