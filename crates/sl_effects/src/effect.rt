//! What a call does to a store.
use sl_slots::{Edit, Element, Rearrangement, Trade};

/// What a call does to the containers of a store; `taken` is how many picks it took before.
#[derive(Drop)]
pub enum Effect {
    /// Nothing.
    Keeps,
    /// An edit of the object, by which these elements come.
    Edits {
        taken: usize,
        edit: Edit,
        come: Vec<Element>,
    },
    /// A container is put together anew.
    Changes {
        taken: usize,
        by: Rearrangement,
    },
    /// The object and another container exchange elements.
    Trades(Trade),
    /// Elements are put into the object one by one.
    Inserts(Vec<Element>),
    /// Numbers are put at the end of a sequence one by one.
    Appends {
        container: usize,
        numbers: Vec<i32>,
    },
    /// A new container has a room and these elements.
    Makes {
        taken: usize,
        room: usize,
        elements: Vec<Element>,
    },
    /// A new container has a room, and these elements are put into it one by one.
    MakesByKeys {
        taken: usize,
        room: usize,
        elements: Vec<Element>,
    },
}
