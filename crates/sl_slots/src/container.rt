//! Containers.
use sl_base::Form;

/// An element: a sequence or a set keeps it as the key.
#[derive(Clone, Copy)]
pub struct Element {
    pub key: i32,
    pub value: i32,
}

/// A container: its form, its elements in order and its room.
#[derive(Drop)]
pub struct Container {
    pub form: Form,
    pub elements: Vec<Element>,
    pub room: usize,
}
