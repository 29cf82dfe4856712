//! The rule on the order of effects: two parts of an expression whose order is open, and could matter.
#![tactic(auto)]

mod changes;
mod deeds;
mod named;
mod order;
mod own_deeds;
mod seen_deeds;
mod still;

pub use changes::{member_changes, subscript_changes};
pub use order::{clash, order_matters, some_clash};
