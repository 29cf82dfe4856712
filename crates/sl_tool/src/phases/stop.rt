//! Why a phase stops.
ghost use Rattle.std.specs.Prelude.{◌≡◌, Some, IfOk};

use crate::refusal::{refusal_line, too_long_line};
use sl_base::{Items, Place};
use std::alloc::{AllocError, Global};

/// Why a phase has no answer: want of memory, or a text that is refused.
#[derive(Clone, Copy)]
pub enum Stop {
    /// Memory ran out.
    Memory,
    /// The text is longer than a text may be.
    TooLong,
    /// The text is refused at a place, and these words say why.
    Refused { place: Place, words: &'static str },
}

impl Stop {
    ghost use Rattle.sl_tool.specs.Stopping.{line_of};

    /// The line that refuses the text of a file. It fails for want of memory, and so it does where that was the stop.
    pub fn line(self, alloc: Global, file: &str) -> Result<Items<u8>, AllocError>
        ensures { IfOk result (λ line. line_of file.now self ≡ Some line) }
    {
        match self {
            Stop::Memory => Err(AllocError),
            Stop::TooLong => too_long_line(alloc, file),
            Stop::Refused { place, words } => refusal_line(alloc, file, place, words),
        }
    }
}
