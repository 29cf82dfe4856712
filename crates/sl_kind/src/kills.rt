//! A set of sites.
ghost use Rattle.std.specs.Prelude.{◌≡◌, ◌≢◌, ℕ, ◌||◌, true, false};

use sl_base::Site;

/// A set of sites, such as those at which an iterator may have been invalidated. A contract asks of a number whether
/// the site with it is in the set. No call takes memory.
#[derive(Clone, Copy)]
pub struct Kills {
    words: [u64; 64],
}

impl Kills {
    ghost use Rattle.sl_kind.specs.Kills.{has};

    /// The empty set.
    pub fn empty() -> Kills
        ensures { (s : ℕ) → has result s ≡ false }
    {
        Kills { words: [0; 64] }
    }

    /// Whether the site is in the set.
    pub fn has(&self, site: Site) -> bool
        ensures { result ≡ has self.now site }
    {
        let number = site.number();
        (self.words[usize::from(number / 64)] >> (number % 64)) & 1 == 1
    }

    /// The set with the site too.
    pub fn with(&self, site: Site) -> Kills
        ensures same { has result site ≡ true }
        ensures others { (s : ℕ) → s ≢ site → has result s ≡ has self.now s }
    {
        let number = site.number();
        let mut more = *self;
        more.words[usize::from(number / 64)] |= 1 << (number % 64);
        more
    }

    /// The set of what is in either of the two.
    pub fn union(&self, other: &Kills) -> Kills
        ensures { (s : ℕ) → has result s ≡ (has self.now s || has other.now s) }
    {
        let mut both = *self;
        for i in 0..64 {
            both.words[i] |= other.words[i];
        }
        both
    }
}
