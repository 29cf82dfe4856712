ghost use Rattle.std.specs.Prelude.{◌≡◌, ◌≤◌, ◌<◌, List, ℕ, length, take, Option, IfOk, OnOk, OnErr};
ghost use Rattle.std.specs.Io.KnownBytes.{Consumes, IsAtEnd};
ghost use Rattle.sl_base.specs.Outside.{Rose, NoFault, OthersKept, AllKept};

/// A read or a write failed.
#[derive(Clone, Copy)]
pub struct Failed;

/// Files that are read by name, each from its first byte on.
pub trait Files {
    /// The bytes of a name that are not read yet, where they are told.
    ghost left: { Self → List ℕ → Option (List ℕ) };

    /// How often a read has failed. The count never falls, and stays at 2^64 - 1 once it is there.
    ghost faults: { Self → ℕ };

    /// The last read that failed was of this name.
    ghost blamed: { Self → List ℕ → Type 0 };

    /// Reads the next bytes of a name into the front of the buffer, and answers how many they are: none
    /// exactly at the end. After `Failed` no byte has left.
    fn read(&mut self, name: &str, buf: &mut [u8]) -> Result<usize, Failed>
        requires { 0 < length buf.old }
        ensures bound { IfOk result (λ n. n ≤ length buf.new) }
        ensures bytes { IfOk result (λ n. Consumes (left self.old name.now) (left self.new name.now) (take n buf.new)) }
        ensures end { IfOk result (λ n. n ≡ 0 → IsAtEnd (left self.new name.now)) }
        ensures others { OnOk result (OthersKept (left self.old) (left self.new) name.now) }
        ensures kept { OnErr result (AllKept (left self.old) (left self.new)) }
        ensures no_fall { faults self.old ≤ faults self.new }
        ensures steady { OnOk result (NoFault (faults self.old) (faults self.new) (blamed self.old) (blamed self.new)) }
        ensures risen { OnErr result (Rose (faults self.old) (faults self.new)) }
        ensures blame { OnErr result (blamed self.new name.now) };
}
