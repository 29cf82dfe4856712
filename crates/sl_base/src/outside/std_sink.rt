ghost use Rattle.std.specs.Prelude.{◌≡◌, ◌<◌, ◌≤◌, None, length, IfOk, OnOk, OnErr};
ghost use Rattle.sl_base.specs.Counts.{faults_after};
ghost use Rattle.sl_base.specs.Outside.{Rose};

use crate::{Failed, Sink};

/// The standard output. It tells nothing of its bytes. A write that takes nothing is a failed one.
#[derive(Drop)]
pub struct StdSink<P: Print + Drop> {
    out: P,
    faults: u64,
}

impl<P: Print + Drop> StdSink<P> {
    /// The standard output of this runtime. It takes no memory.
    pub fn new(out: P) -> StdSink<P>
        ensures { result.faults ≡ 0 }
    {
        StdSink { out, faults: 0 }
    }
}

impl<P: Print + Drop> Sink for StdSink<P> {
    ghost taken = { λ _. None };

    ghost faults = { λ s. s.faults };

    // The clauses of the trait.
    fn write(&mut self, piece: &[u8]) -> Result<usize, Failed>
        requires { 0 < length piece.now }
        ensures bound { IfOk result (λ n. n ≤ length piece.now) }
        ensures some { IfOk result (λ n. 0 < n) }
        ensures no_fall { self.old.faults ≤ self.new.faults }
        ensures steady { OnOk result (self.new.faults ≡ self.old.faults) }
        ensures risen { OnErr result (Rose self.old.faults self.new.faults) }

        // What fails is counted.
        ensures counted { self.new.faults ≡ faults_after result self.old.faults }
    {
        match self.out.write_some(piece) {
            Ok(count) if count > 0 => Ok(count),
            _ => {
                self.faults = self.faults.saturating_add(1);
                Err(Failed)
            }
        }
    }
}
