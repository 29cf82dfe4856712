//! The schedule of a run: the numbers by which it chooses.
ghost use Rattle.std.specs.Prelude.{◌≡◌, drop};
ghost use Rattle.sl_model.specs.Memory.Schedule.{after_picks, pick, pick_at};
ghost use Rattle.sl_effects.specs.Carried.{left_in};

/// The numbers of a schedule, and how many of them were taken. Where none is left, a pick is 0.
#[derive(Drop)]
pub struct Picks {
    pub numbers: Vec<u32>,
    pub taken: usize,
}

impl Picks {
    /// A schedule of which nothing is taken.
    pub fn new(numbers: Vec<u32>) -> Picks
        ensures { left_in result ≡ numbers.items }
    {
        Picks { numbers, taken: 0 }
    }

    /// The number that is picked after `after` others.
    pub fn peek(&self, after: usize) -> u32
        ensures { result ≡ pick_at after (left_in self.now) }
    {
        number_at(&self.numbers, self.taken.saturating_add(after))
    }

    /// Takes the first number that is left, or 0.
    pub fn take(&mut self) -> u32
        ensures number { result ≡ pick (left_in self.old) }
        ensures left { left_in self.new ≡ after_picks 1 (left_in self.old) }
    {
        let number = number_at(&self.numbers, self.taken);
        self.skip(1);
        number
    }

    /// Takes so many numbers, or all that are left.
    pub fn skip(&mut self, count: usize)
        ensures { left_in self.new ≡ after_picks count (left_in self.old) }
    {
        self.taken = self.taken.saturating_add(count);
    }
}

// The number at an index, and 0 behind the last.
fn number_at(numbers: &[u32], at: usize) -> u32
    ensures { result ≡ pick (drop at numbers.now) }
{
    if at < numbers.len() { numbers[at] } else { 0 }
}
