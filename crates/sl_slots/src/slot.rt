//! Iterators and references, and the values that hold them.

/// Where an iterator or a reference stands, or, once it is invalid, the site that invalidated it.
#[derive(Clone, Copy)]
pub enum Slot {
    /// At a place of a container, whose number it is; the container's size is the place of its end.
    Stands { container: usize, place: usize },
    /// Nowhere.
    Gone { site: Option<usize> },
}

/// Which number of an element.
#[derive(Clone, Copy)]
pub enum Part {
    Key,
    Value,
}

/// What an iterator variable or a reference holds.
#[derive(Clone, Copy)]
pub enum Pointer {
    Iterator(Slot),
    Reference(Slot, Part),
}

/// What an expression gives: `ScalarAt`, `ContainerAt` and `ElementAt` say where something is.
#[derive(Clone, Copy)]
pub enum Value {
    Nothing,
    Number(i128),
    Iterator(Slot),
    /// An iterator with a bool.
    Pair(Slot, bool),
    /// Two iterators.
    Two(Slot, Slot),
    ScalarAt(usize),
    ContainerAt(usize),
    ElementAt {
        container: usize,
        place: usize,
        part: Part,
    },
}
