/// The word that stands at the end of the bytes that are read so far.
#[derive(Clone, Copy)]
pub enum Word {
    /// None: a blank is the last byte, or there is no byte yet.
    Blank,
    /// A `-` alone.
    Minus,
    /// Digits that write this number, behind a `-` or not.
    Digits { negative: bool, value: u32 },
}
