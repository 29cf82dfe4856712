//! Typing: the types of expressions, the rules that a program keeps, and the numbers that it then has.
#![tactic(auto)]

mod expr_type;
mod fault;
mod forms;
mod laws;
pub mod rules;
mod scope;
mod standing;

pub use expr_type::{ExprType, common, is_const, same_scalar};
pub use fault::Fault;
pub use forms::{is_hash, is_keyed, is_map, is_random_access, same_form};
pub use laws::{one_answer, typed_or_broken};
pub use scope::{FunctionHead, NamedVariable, Scope};
pub use standing::Standing;
