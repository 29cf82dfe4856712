#![tactic(auto)]

mod calls;
mod conversion;
mod expression;
mod heads;
mod members;
mod names;
mod operand;
mod operators;
mod rows;
mod sites;
mod steps;
mod variables;
mod ways;

pub use calls::{call, move_call};
pub use conversion::{converted, handed};
pub use expression::{operands, typed};
pub use heads::{head, one, operator_head};
pub use names::{name_number, told, told_behind, variable_number};
pub use operand::Operand;
pub use variables::{left_of, number_in};
pub use ways::{Way, Ways};
