//! The parts of statements that break no rule, typed: expressions, reads, prints, assignments, effects, conditions and declarations.
#![tactic(auto)]

mod assignments;
mod closing;
mod containers;
mod declarations;
mod effects;
mod prints;
mod reads;
mod values;

pub use closing::closing_brace;
pub use declarations::{declaration, first_part};
pub use effects::{condition, effect, last_part, test};
pub use values::{expression, operand};
