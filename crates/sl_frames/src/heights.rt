//! How many variables there are.

/// How many scalars, containers, and iterators with references there are.
#[derive(Clone, Copy)]
pub struct Heights {
    pub scalars: usize,
    pub containers: usize,
    pub pointers: usize,
}
