//! The types of expressions, what they are by their looks, the rows that their calls mean, and which of them are sites.
#![tactic(auto)]

mod appenders;
mod calls;
mod expression;
mod gives;
mod looks;
mod nodes;
mod rows;
mod sites;
mod types;

pub use appenders::{appends, is_back_inserter};
pub use calls::{algorithm_call_type, member_call_type};
pub use expression::{is_left_side, type_of, types_of};
pub use gives::{algorithm_gives, result_type};
pub use looks::{
    bare_name, is_first, is_left_side_of, is_part_name, is_plain, place_of, plain_name,
};
pub use nodes::{
    binary_type, own_call_type, prefix_type, selected_type, subscript_type, type_of_use,
};
pub use rows::{row_of_algorithm, row_of_member, row_of_subscript};
pub use sites::{
    capped_sum, is_member_site, is_site, is_subscript_site, site_count, site_count_of_all,
};
pub use types::{Types, empty, pushed, slice_of};
