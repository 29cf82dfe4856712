//! Counts of tries.

/// How many tries there were, and how many of them differ.
#[derive(Drop)]
pub struct Tally {
    pub tries: u64,
    pub differ: u64,
}

impl Tally {
    pub fn new() -> Tally {
        Tally {
            tries: 0,
            differ: 0,
        }
    }

    /// Counts a try.
    pub fn count(&mut self, agrees: bool) {
        self.tries = self.tries.saturating_add(1);
        if !agrees {
            self.differ = self.differ.saturating_add(1);
        }
    }
}
