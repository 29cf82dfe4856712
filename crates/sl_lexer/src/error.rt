ghost use Rattle.std.specs.Prelude.{◌≡◌};
ghost use Rattle.sl_lexer.specs.declared.error.LexErr.TheVariants.{Memory};

use std::alloc::AllocError;
use thiserror::Error;

/// Why a text has no tokens. Offsets are in bytes, from 0.
#[derive(Clone, Copy, Debug, Error)]
pub enum LexErr {
    #[error("out of memory")]
    Memory,
    /// A byte that begins nothing, the 65th of a name, the backslash of a wrong escape, or one directly before
    /// a line's end.
    #[error("bad byte at offset {offset}")]
    BadByte { offset: u32 },
    /// A number past 2147483647, or one that a letter, digit, `_`, `.` or `'` directly follows; at its first byte.
    #[error("bad number at offset {offset}")]
    BadNumber { offset: u32 },
    /// A `/*` that no `*/` follows; at the `/*`.
    #[error("open comment at offset {offset}")]
    OpenComment { offset: u32 },
    /// A text that its line does not close, or one in single quotes that has not exactly one byte or escape;
    /// at the quote.
    #[error("open text at offset {offset}")]
    OpenText { offset: u32 },
    /// A `#` that begins no directive.
    #[error("bad directive at offset {offset}")]
    BadDirective { offset: u32 },
}

impl From<AllocError> for LexErr {
    ghost from_gives = { λ _ e. e ≡ Memory };

    fn from(_: AllocError) -> Self {
        LexErr::Memory
    }
}
