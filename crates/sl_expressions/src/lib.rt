//! Reads tokens as expressions, as lists of them, and as what is done for its effect.
#![tactic(auto)]

pub mod effect;
pub mod expression;
