//! What the machine keeps of containers: their elements, and each iterator and reference as where it stands, or as the
//! site that invalidated it. No number is given to a place, and nothing is kept of what went.
#![tactic(auto)]

mod container;
mod edit;
mod editing;
mod ending;
mod invalidation;
mod motion;
mod moving;
mod reading;
mod rearrangement;
mod rearranging;
mod slot;
mod source;
mod store;
mod trade;
mod trading;
mod writing;

pub use container::{Container, Element};
pub use edit::Edit;
pub use rearrangement::Rearrangement;
pub use slot::{Part, Pointer, Slot, Value};
pub use source::Source;
pub use store::Store;
pub use trade::{Side, Trade};
