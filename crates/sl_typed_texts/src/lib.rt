//! What is typed is well typed: laws that join those of the parts.
#![tactic(auto)]

mod laws;

pub use laws::typed_texts;
