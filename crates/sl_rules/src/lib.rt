//! The rules that an expression breaks.
#![tactic(auto)]

mod arguments;
mod checks;
mod fault;
mod look;
mod names;
mod nodes;
mod operands;
mod standings;
mod walk;

pub use fault::broken;
pub use look::{Look, LookAll};
pub use operands::{assigns_const, assigns_weaker, wrong_assignment};
pub use walk::{look_at, look_at_all};
