//! What is known behind expressions: their sites.
#![tactic(auto)]

mod sites;

pub use sites::{pass, pass_all, pass_assignment, pass_brace};
