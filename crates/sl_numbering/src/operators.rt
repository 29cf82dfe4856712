//! Operators.
mod binary;
mod unary;

pub use binary::{calculated, joined};
pub use unary::{postfixed, prefixed};
