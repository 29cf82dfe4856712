//! The numbers of a typed text are those that it is to have: laws of the definitions of typing alone.
#![tactic(auto)]

mod laws;

pub use laws::typed_numbers;
