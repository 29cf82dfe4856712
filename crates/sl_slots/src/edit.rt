//! Edits of a container, by their numbers.
use sl_specs::Class;

/// An edit: `gone` elements go from place `from`, others come there, and then the container has this room. The class says
/// what it invalidates.
#[derive(Clone, Copy)]
pub struct Edit {
    pub class: Class,
    pub from: usize,
    pub gone: usize,
    pub room: usize,
}

/// An edit of a container that has a size and a room, into which so many elements come, at a site.
#[derive(Clone, Copy)]
pub struct Editing {
    pub edit: Edit,
    pub container: usize,
    pub size: usize,
    pub room: usize,
    pub come: usize,
    pub site: usize,
}
