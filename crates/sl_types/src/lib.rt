//! Typing: a program's typed text, or the first rule that it breaks.
#![tactic(auto)]

mod error;
mod functions;
mod parameters;
mod program;
mod typing;

pub use error::TypeErr;
pub use typing::resolve;
