use sl_base::{Name, Place};

/// A name in a text, and the place of its first byte.
#[derive(Drop)]
pub struct Identifier {
    pub name: Name,
    pub place: Place,
}
