//! What statements and declarations ask of types.
#![tactic(auto)]

mod blocks;
mod elements;
mod fault;
mod initializers;
mod names;
mod reads;
mod results;
mod values;

pub use blocks::declares_container;
pub use elements::{element_type, frees_const, head_frees_const, may_go_over, reference_type};
pub use fault::{broken, earlier};
pub use initializers::{has_no_constructor, wrong_initializer};
pub use names::{
    hidden_limit_fault, limit_fault, name_fault, site_fault, statement_fault, twice_fault,
};
pub use reads::{names_fault, read_fault};
pub use results::{goes_to_result, wrong_return};
pub use values::{
    is_assignment_site, may_be_bound, wrong_cond, wrong_out, wrong_result, wrong_value,
};
