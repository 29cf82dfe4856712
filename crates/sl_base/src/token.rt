use crate::{Place, Word};

/// A token of a text: what it says, the offset of its first byte, from 0, and that byte's place.
#[derive(Drop)]
pub struct Token {
    pub word: Word,
    pub offset: u32,
    pub place: Place,
}
