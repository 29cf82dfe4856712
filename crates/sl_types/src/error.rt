ghost use Rattle.std.specs.Prelude.{◌≡◌};
ghost use Rattle.sl_types.specs.declared.error.TypeErr.TheVariants.{Memory};

use sl_base::Place;
use std::alloc::AllocError;
use thiserror::Error;

/// Why a program is not typed.
#[derive(Debug, Drop, Error)]
pub enum TypeErr {
    #[error("out of memory")]
    Memory,
    /// The first rule that the program breaks, by its number in `sl_typing::rules`, and the place where it is broken.
    #[error("rule {rule} of typing is broken at {}:{}", .place.line, .place.col)]
    At { place: Place, rule: u8 },
}

impl From<AllocError> for TypeErr {
    ghost from_gives = { λ _ e. e ≡ Memory };

    fn from(_: AllocError) -> Self {
        TypeErr::Memory
    }
}
