//! What is typed binds no variable to two references of a call: a law of the definitions of typing and of well typed texts alone.
#![tactic(auto)]

mod laws;

pub use laws::typed_order;
