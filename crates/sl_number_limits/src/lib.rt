//! At each place of a program that breaks no rule of typing all numbers are within the limits: laws of the definitions of typing alone.
#![tactic(auto)]

mod laws;

pub use laws::{places_fit, typed_programs_fit};
