ghost use Rattle.std.specs.Prelude.{◌≡◌, ◌<◌};

use crate::limits::SITES;
use std::marker::Model;

/// The number, from 0, of a place in the text at which iterators can be invalidated. A contract sees the number.
#[derive(Clone, Copy)]
pub struct Site(u16);

impl Model for Site {
    ghost use Rattle.std.specs.Prelude.{ℕ, ◌<◌};
    ghost use Rattle.sl_base.specs.declared.limits.TheConstants.{SITES};

    ghost Value = { ℕ };

    ghost view = { λ s. s.0 };

    ghost invariant = { λ s. s.0 < SITES };

    ghost inverse = { λ n. record { 0 = n } };
}

impl Site {
    /// The site of a number below 4,096.
    pub fn new(number: u16) -> Site
        requires { number < SITES }
        ensures { result ≡ number }
    {
        Site(number)
    }

    /// The number of the site.
    pub fn number(self) -> u16
        ensures value { result ≡ self }
        ensures within { result < SITES }
    {
        self.0
    }
}
