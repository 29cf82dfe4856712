//! Calls, and the arguments that they take.

pub mod algorithms;
pub mod members;
pub mod own_calls;
pub mod parameters;
pub mod rows;
