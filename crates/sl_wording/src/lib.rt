// The words that reports and the ends of runs share.
#![tactic(auto)]

mod sites;
mod wording;

pub use sites::{push_place, push_sites};
pub use wording::{kind_words, push_who};
