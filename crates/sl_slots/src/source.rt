//! Where the elements of a container that is put together anew come from.
use crate::container::Element;

/// Where an element comes from.
#[derive(Clone, Copy)]
pub enum Source {
    /// A place of the container itself.
    Old(usize),
    /// A place of it, where another key is written over the element's.
    Written(usize, i32),
    /// A place of the other container.
    Theirs(usize),
    /// Nowhere: it is new.
    New(Element),
}
