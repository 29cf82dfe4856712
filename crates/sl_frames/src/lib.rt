//! The variables of all calls in progress, as the machine keeps them.
#![tactic(auto)]

mod binding;
mod calls;
mod conversion;
mod declaring;
mod frame;
mod heights;
mod locating;
mod reading;
mod references;
mod scopes;
mod variables;
mod writing;

pub use calls::Caller;
pub use frame::Frame;
pub use heights::Heights;
pub use references::ReferenceUse;
pub use scopes::Mark;
pub use variables::{ScalarVariable, Variables};
