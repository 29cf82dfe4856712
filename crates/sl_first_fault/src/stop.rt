ghost use Rattle.std.specs.Prelude.{◌≡◌};
ghost use Rattle.sl_first_fault.specs.declared.stop.Stop.TheVariants.{Memory};

use sl_typing::Fault;
use std::alloc::{AllocError, AllocFailed};

/// Why a walk over a program stops.
#[derive(Drop)]
pub enum Stop {
    Memory,
    At(Fault),
}

impl From<AllocError> for Stop {
    ghost from_gives = { λ _ e. e ≡ Memory };

    fn from(_: AllocError) -> Self {
        Stop::Memory
    }
}

impl<T: Drop> From<AllocFailed<T>> for Stop {
    ghost from_gives = { λ _ e. e ≡ Memory };

    fn from(_: AllocFailed<T>) -> Self {
        Stop::Memory
    }
}
