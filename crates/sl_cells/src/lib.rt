//! What is known of the elements of a container. No call takes memory.
#![tactic(auto)]

mod cells;
mod item;
mod order;
mod places;
mod sorted;
mod sorting;
mod window;

pub use cells::Cells;
pub use item::Item;
pub use sorted::Sorted;
