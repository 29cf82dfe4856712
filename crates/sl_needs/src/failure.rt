//! Failures of needs.
ghost use Rattle.std.specs.Prelude.{◌≡◌};
ghost use Rattle.sl_model.specs.LibraryCalls.Needs.{first_failure, fails_if, is_before};
ghost use Rattle.sl_needs.specs.Failures.{told, pair_of};
ghost use Rattle.sl_needs.specs.Means.Sooner.{sooner};

/// A need that fails: its kind, one of `sl_base::failures`, and the argument at which it does, where the object is 0.
#[derive(Clone, Copy)]
pub struct Failure {
    pub kind: u8,
    pub argument: usize,
}

impl Failure {
    /// Whether it counts before another one: of the lesser kind, or of one kind at the lesser argument.
    pub fn is_before(self, other: Failure) -> bool
        ensures { result ≡ is_before (pair_of self) (pair_of other) }
    {
        (self.kind < other.kind) | ((self.kind == other.kind) & (self.argument < other.argument))
    }
}

/// A failure where a test holds.
pub fn fails_if(test: bool, kind: u8, argument: usize) -> Option<Failure>
    ensures { told result ≡ first_failure (fails_if test kind argument) }
{
    if test {
        Some(Failure { kind, argument })
    } else {
        None
    }
}

/// The one of two failures that counts.
fn least(first: Failure, second: Failure) -> Option<Failure>
    ensures { told result ≡ sooner (told (Some first)) (told (Some second)) }
{
    if second.is_before(first) {
        Some(second)
    } else {
        Some(first)
    }
}

/// The one of two failures that counts, where there are two.
pub fn earlier(first: Option<Failure>, second: Option<Failure>) -> Option<Failure>
    ensures { told result ≡ sooner (told first) (told second) }
{
    match (first, second) {
        (Some(first), Some(second)) => least(first, second),
        (Some(first), None) => Some(first),
        (None, second) => second,
    }
}
