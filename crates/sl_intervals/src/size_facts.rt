//! A table of facts on scalars and sizes.
ghost use Rattle.std.specs.Prelude.{◌≡◌, ◌≢◌, ◌⊎◌, ◌<◌, ◌+◌, ◌*◌, ◌&&◌, ℕ};

use crate::size_fact::{SizeFact, shared};

/// What is known of each of 48 scalars and the sizes of each of 16 containers, by their numbers.
#[derive(Clone, Copy)]
pub struct SizeFacts {
    entries: [SizeFact; 768],
}

/// The place of a scalar and a container.
fn place_of(x: u8, c: u8) -> usize
    requires scalar { x < 48 }
    requires container { c < 16 }
    ensures { result ≡ x * 16 + c }
{
    usize::from(x) * 16 + usize::from(c)
}

impl SizeFacts {
    ghost use Rattle.sl_intervals.specs.SizeTable.{told, tells};
    ghost use Rattle.sl_intervals.specs.declared.size_fact.SizeFact.{SizeFact};

    /// The table that tells nothing.
    pub fn new() -> SizeFacts
        ensures { (x c : ℕ) → x < 48 → c < 16 → told result x c ≡ SizeFact.Nothing }
    {
        SizeFacts {
            entries: [SizeFact::Nothing; 768],
        }
    }

    /// What is known of this scalar and this container.
    pub fn get(&self, x: u8, c: u8) -> SizeFact
        requires scalar { x < 48 }
        requires container { c < 16 }
        ensures { result ≡ told self.now x c }
    {
        self.entries[place_of(x, c)]
    }

    /// Puts a fact in place of what stood there.
    pub fn set(&mut self, x: u8, c: u8, fact: SizeFact)
        requires scalar { x < 48 }
        requires container { c < 16 }
        ensures same { told self.new x c ≡ fact }
        ensures others { (y d : ℕ) → y < 48 → d < 16 → (y ≢ x ⊎ d ≢ c) → told self.new y d ≡ told self.old y d }
    {
        self.entries[place_of(x, c)] = fact;
    }

    /// What both tables tell.
    pub fn join(&self, other: &SizeFacts) -> SizeFacts
        ensures { (x c : ℕ) (fact : SizeFact) → x < 48 → c < 16 →
            tells (told result x c) fact ≡ (tells (told self.now x c) fact && tells (told other.now x c) fact) }
    {
        let mut both = *self;
        for i in 0..768 {
            both.entries[i] = shared(both.entries[i], other.entries[i]);
        }
        both
    }

    /// Drops what is known of a scalar.
    pub fn drop_scalar(&mut self, x: u8)
        requires { x < 48 }
        ensures same { (d : ℕ) → d < 16 → told self.new x d ≡ SizeFact.Nothing }
        ensures others { (y d : ℕ) → y < 48 → d < 16 → y ≢ x → told self.new y d ≡ told self.old y d }
    {
        for d in 0..16 {
            self.set(x, d, SizeFact::Nothing);
        }
    }

    /// Drops what is known of a container.
    pub fn drop_container(&mut self, c: u8)
        requires { c < 16 }
        ensures same { (y : ℕ) → y < 48 → told self.new y c ≡ SizeFact.Nothing }
        ensures others { (y d : ℕ) → y < 48 → d < 16 → d ≢ c → told self.new y d ≡ told self.old y d }
    {
        for y in 0..48 {
            self.set(y, c, SizeFact::Nothing);
        }
    }
}
