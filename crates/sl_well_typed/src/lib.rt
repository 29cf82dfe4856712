//! What is typed is well typed: laws of the definitions of typing, and of what is asked of a typed text, alone.
#![tactic(auto)]

mod laws;

pub use laws::typed_texts_keep_their_types;
