// What list of numbers the bytes of an input or of a schedule hold.
#![tactic(auto)]

mod error;
mod kind;
mod laws;
mod narrowing;
mod reading;
mod walk;
mod word;

pub use error::ListErr;
pub use laws::list_or_fault;
pub use reading::{read_input, read_schedule};
