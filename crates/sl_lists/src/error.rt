ghost use Rattle.std.specs.Prelude.{◌≡◌};
ghost use Rattle.sl_lists.specs.declared.error.ListErr.TheVariants.{Memory};

use std::alloc::AllocError;
use thiserror::Error;

/// Why bytes give no list.
#[derive(Clone, Copy, Debug, Error)]
pub enum ListErr {
    #[error("out of memory")]
    Memory,
    /// The bytes hold no list: at this offset, from 0, is the first byte at which they can't be completed to one any
    /// more, or their end where all of them can be.
    #[error("bad list at offset {offset}")]
    Bad { offset: usize },
}

impl From<AllocError> for ListErr {
    ghost from_gives = { λ _ e. e ≡ Memory };

    fn from(_: AllocError) -> Self {
        ListErr::Memory
    }
}
