//! Reads tokens as a program.
#![tactic(auto)]

mod container;
mod declaration;
mod error;
mod function;
mod params;
mod program;
mod reference;
mod statement;

pub use error::ParseErr;
pub use program::parse;
