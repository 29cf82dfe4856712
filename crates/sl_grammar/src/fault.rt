ghost use Rattle.std.specs.Prelude.{◌≡◌};
ghost use Rattle.sl_grammar.specs.declared.fault.Fault.TheVariants.{Memory};

use std::alloc::{AllocError, AllocFailed};

/// Why tokens are not read.
#[derive(Drop)]
pub enum Fault {
    Memory,
    /// The number of tokens that are left, from the one on that can't stand there.
    Grammar(usize),
}

impl From<AllocError> for Fault {
    ghost from_gives = { λ _ e. e ≡ Memory };

    fn from(_: AllocError) -> Self {
        Fault::Memory
    }
}

impl<T: Drop> From<AllocFailed<T>> for Fault {
    ghost from_gives = { λ _ e. e ≡ Memory };

    fn from(_: AllocFailed<T>) -> Self {
        Fault::Memory
    }
}
