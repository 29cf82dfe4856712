use thiserror::Error;

/// Why tokens are not parsed.
#[derive(Debug, Drop, Error)]
pub enum ParseErr {
    #[error("out of memory")]
    Memory,
    /// The number of the token, from 0, with which the words begin no program, though those before it do. Where it is
    /// the number of tokens, they begin one and aren't one.
    #[error("token {token} can't stand there")]
    Grammar { token: u32 },
}
