use crate::{End, Output};

/// The end of a run, and what it wrote.
#[derive(Drop)]
pub struct Finish {
    pub end: End,
    pub output: Output,
}
