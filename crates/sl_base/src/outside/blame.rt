/// What the last read that failed was of.
#[derive(Drop)]
pub enum Blame {
    /// No read has failed.
    Nothing,
    /// The name with this index among those that are known.
    Known(usize),
    /// A name that isn't known.
    Unknown,
}
