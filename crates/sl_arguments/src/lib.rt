//! The arguments of a call of the library, read off a store: where they stand, which numbers they are, whether they are of
//! the sorts that the call takes, and which container is its object.
#![tactic(auto)]

mod arguments;
mod fitting;
mod numbers;
mod object;
mod position;
mod ranges;
mod shape;
mod steps;

pub use arguments::Arguments;
pub use object::{Object, object_in};
pub use position::{Position, container_at, container_in};
pub use steps::Steps;
