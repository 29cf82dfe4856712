ghost use Rattle.std.specs.Prelude.{
  ◌≡◌,
  ◌+◌,
  ◌<◌,
  ◌≤◌,
  ◌↔◌,
  ℕ,
  List,
  [],
  ◌++◌,
  length,
  take,
  min,
  None,
  MatchOption,
  IfOk,
  OnOk,
  OnErr,
  IsErr,
};
ghost use Rattle.std.specs.Io.KnownBytes.{Consumes, IsAtEnd};
ghost use Rattle.std.specs.Option.{ForSome};
ghost use Rattle.sl_base.specs.Counts.{one_more, faults_after};
ghost use Rattle.sl_base.specs.Outside.{Rose, NoFault, OthersKept, AllKept};
ghost use Rattle.sl_base.specs.Memory.{left_in, IsPlace, IsBlamed, BlamesAlone};

use crate::outside::blame::Blame;
use crate::{Failed, Files};

/// Files in memory, for tests. They tell their bytes, and their reads take no memory.
#[derive(Drop)]
pub struct MemFiles {
    files: Vec<(String, Vec<u8>)>,
    chunk: usize,
    fails: Vec<u64>,
    calls: u64,
    faults: u64,
    blame: Blame,
    ghost takes_some: { 0 < chunk },
}

impl MemFiles {
    ghost use Rattle.sl_base.specs.MemoryViews.{mem_files, mem_chunk, mem_fails, mem_calls, mem_faults, mem_blamed};

    /// Files of these names and bytes, of which a read gives at most `chunk` bytes, and of whose reads those
    /// fail whose numbers, from 0, are in `fails`. Of two files of one name the first counts. It takes no memory.
    pub fn new(files: Vec<(String, Vec<u8>)>, chunk: usize, fails: Vec<u64>) -> MemFiles
        requires { 0 < chunk }
        ensures files { mem_files result ≡ files.items }
        ensures chunk { mem_chunk result ≡ chunk }
        ensures fails { mem_fails result ≡ fails.items }
        ensures calls { mem_calls result ≡ 0 }
        ensures faults { mem_faults result ≡ 0 }
        ensures unblamed { (name : List ℕ) → mem_blamed result name → ⊥ }
    {
        MemFiles {
            files,
            chunk,
            fails,
            calls: 0,
            faults: 0,
            blame: Blame::Nothing,
        }
    }

    /// How often a read has failed, up to 2^64 - 1.
    pub fn faults(&self) -> u64
        ensures { result ≡ mem_faults self.now }
    {
        self.faults
    }

    // Counts a fault, and says what it was of.
    fn fail(&mut self, blame: Blame) -> Failed
        ensures counted { self.new.faults ≡ one_more self.old.faults }
        ensures no_fall { self.old.faults ≤ self.new.faults }
        ensures blame { self.new.blame ≡ blame }
        ensures files { self.new.files ≡ self.old.files }
        ensures chunk { self.new.chunk ≡ self.old.chunk }
        ensures fails { self.new.fails ≡ self.old.fails }
        ensures calls { self.new.calls ≡ self.old.calls }
    {
        self.faults = self.faults.saturating_add(1);
        self.blame = blame;
        Failed
    }
}

// The index of the first file of this name.
fn place_of_name(files: &[(String, Vec<u8>)], name: &str) -> Option<usize>
    ensures { MatchOption result (left_in files.now name.now ≡ None) (IsPlace files.now name.now) }
{
    for (i, file) in files.iter().enumerate() {
        if file.0.as_str() == name {
            return Some(i);
        }
    }
    None
}

// Takes at most so many bytes from the front.
fn take_front(bytes: &mut Vec<u8>, chunk: usize, buf: &mut [u8]) -> usize
    requires some { 0 < chunk }
    requires room { 0 < length buf.old }
    ensures bound { result ≤ length buf.new }
    ensures most { result ≡ min chunk (min (length buf.new) (length bytes.old.items)) }
    ensures bytes { bytes.old.items ≡ take result buf.new ++ bytes.new.items }
    ensures end { result ≡ 0 → bytes.new.items ≡ [] }
{
    let count = chunk.min(buf.len()).min(bytes.len());
    buf[..count].copy_from_slice(&bytes[..count]);
    let left = bytes.len() - count;
    bytes.copy_within(count.., 0);
    bytes.truncate(left);
    count
}

impl Files for MemFiles {
    ghost use Rattle.sl_base.specs.MemoryViews.{
      mem_left,
      mem_names,
      mem_chunk,
      mem_fails,
      mem_calls,
      mem_faults,
      mem_blamed,
      ReadFails,
    };

    ghost left = { λ m name. left_in m.files.items name };

    ghost faults = { λ m. m.faults };

    ghost blamed = { λ m name. IsBlamed m.files.items m.blame name };

    // The clauses of the trait.
    fn read(&mut self, name: &str, buf: &mut [u8]) -> Result<usize, Failed>
        requires { 0 < length buf.old }
        ensures bound { IfOk result (λ n. n ≤ length buf.new) }
        ensures bytes { IfOk result
            (λ n. Consumes (mem_left self.old name.now) (mem_left self.new name.now) (take n buf.new)) }
        ensures end { IfOk result (λ n. n ≡ 0 → IsAtEnd (mem_left self.new name.now)) }
        ensures others { OnOk result (OthersKept (mem_left self.old) (mem_left self.new) name.now) }
        ensures kept { OnErr result (AllKept (mem_left self.old) (mem_left self.new)) }
        ensures no_fall { mem_faults self.old ≤ mem_faults self.new }
        ensures steady { OnOk result
            (NoFault (mem_faults self.old) (mem_faults self.new) (mem_blamed self.old) (mem_blamed self.new)) }
        ensures risen { OnErr result (Rose (mem_faults self.old) (mem_faults self.new)) }
        ensures blame { OnErr result (mem_blamed self.new name.now) }

        // When it fails, and what that leaves.
        ensures fails { IsErr result ↔ ReadFails self.old name.now }
        ensures counted { mem_faults self.new ≡ faults_after result (mem_faults self.old) }
        ensures blames_alone { OnErr result (BlamesAlone (mem_left self.new) (mem_blamed self.new) name.now) }

        // What goes on as before.
        ensures most { IfOk result (λ n. ForSome (mem_left self.old name.now)
            (λ left. n ≡ min (mem_chunk self.old) (min (length buf.new) (length left)))) }
        ensures chunk { mem_chunk self.new ≡ mem_chunk self.old }
        ensures listed { mem_fails self.new ≡ mem_fails self.old }
        ensures names { mem_names self.new ≡ mem_names self.old }
        ensures calls { mem_calls self.new ≡ one_more (mem_calls self.old) }
    {
        let call = self.calls;
        self.calls = call.saturating_add(1);
        let Some(i) = place_of_name(&self.files, name) else {
            return Err(self.fail(Blame::Unknown));
        };
        if self.fails.contains(&call) {
            return Err(self.fail(Blame::Known(i)));
        }
        Ok(take_front(&mut self.files[i].1, self.chunk, buf))
    }
}
