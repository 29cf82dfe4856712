/// How an expression stands in what holds it.
#[derive(Clone, Copy)]
pub enum Standing {
    /// As any part.
    Plain,
    /// Directly as the output of an algorithm.
    Output,
    /// Directly before `.first` or `.second`.
    Pair,
}
