ghost use Rattle.std.specs.Prelude.{◌≡◌};
ghost use Rattle.sl_lists.specs.Means.Steps as steps;

/// Which numbers are read.
#[derive(Clone, Copy)]
pub enum Kind {
    /// Ints.
    Input,
    /// Numbers from 0 on, below 2 to the 32.
    Schedule,
}

impl Kind {
    // Whether a `-` may stand before digits.
    pub fn is_signed(self) -> bool
        ensures { result ≡ steps.is_signed self }
    {
        match self {
            Kind::Input => true,
            Kind::Schedule => false,
        }
    }

    // The greatest number that digits may write, behind a `-` or not.
    pub fn greatest(self, negative: bool) -> u32
        ensures { result ≡ steps.greatest self negative }
    {
        match self {
            Kind::Input => greatest_int(negative),
            Kind::Schedule => 4_294_967_295,
        }
    }
}

fn greatest_int(negative: bool) -> u32
    ensures { result ≡ steps.greatest_int negative }
{
    if negative {
        2_147_483_648
    } else {
        2_147_483_647
    }
}
