ghost use Rattle.std.specs.Prelude.{
  ◌≡◌,
  ◌<◌,
  ◌≤◌,
  ◌-◌,
  ◌↔◌,
  [],
  length,
  min,
  take,
  Some,
  IfOk,
  OnOk,
  OnErr,
  IsErr,
  vec_len,
  vec_capacity,
};
ghost use Rattle.std.specs.Io.KnownBytes.{Appends, Keeps};
ghost use Rattle.sl_base.specs.Counts.{one_more, faults_after};
ghost use Rattle.sl_base.specs.Outside.{Rose};

use crate::{Failed, Sink};
use std::alloc::{AllocError, Global};

/// A sink in memory, for tests. It tells its bytes, and its writes take no memory.
#[derive(Drop)]
pub struct MemSink {
    bytes: Vec<u8>,
    chunk: usize,
    room: usize,
    fails: Vec<u64>,
    calls: u64,
    faults: u64,
    ghost takes_some: { 0 < chunk },
    ghost has_room: { vec_len bytes ≤ room },
    ghost reserved: { room ≤ vec_capacity bytes },
}

impl MemSink {
    ghost use Rattle.sl_base.specs.MemoryViews.{sink_bytes, sink_chunk, sink_room, sink_fails, sink_calls, sink_faults};

    /// An empty sink, which takes `room` bytes in all and at most `chunk` bytes in a write, and of whose writes
    /// those fail whose numbers, from 0, are in `fails`. The memory for the room is taken here.
    pub fn new(
        alloc: Global,
        chunk: usize,
        room: usize,
        fails: Vec<u64>,
    ) -> Result<MemSink, AllocError>
        requires { 0 < chunk }
        ensures bytes { IfOk result (λ s. sink_bytes s ≡ []) }
        ensures chunk { IfOk result (λ s. sink_chunk s ≡ chunk) }
        ensures room { IfOk result (λ s. sink_room s ≡ room) }
        ensures fails { IfOk result (λ s. sink_fails s ≡ fails.items) }
        ensures calls { IfOk result (λ s. sink_calls s ≡ 0) }
        ensures faults { IfOk result (λ s. sink_faults s ≡ 0) }
    {
        Ok(MemSink {
            bytes: Vec::with_capacity(alloc, room)?,
            chunk,
            room,
            fails,
            calls: 0,
            faults: 0,
        })
    }

    /// The bytes taken so far.
    pub fn bytes(&self) -> &[u8]
        ensures { result.now ≡ sink_bytes self.now }
    {
        &self.bytes
    }

    /// How often a write has failed, up to 2^64 - 1.
    pub fn faults(&self) -> u64
        ensures { result ≡ sink_faults self.now }
    {
        self.faults
    }
}

impl Sink for MemSink {
    ghost use Rattle.sl_base.specs.MemoryViews.{
      sink_bytes,
      sink_chunk,
      sink_room,
      sink_fails,
      sink_calls,
      sink_faults,
      WriteFails,
    };

    ghost taken = { λ s. Some (sink_bytes s) };

    ghost faults = { λ s. s.faults };

    // The clauses of the trait.
    fn write(&mut self, piece: &[u8]) -> Result<usize, Failed>
        requires { 0 < length piece.now }
        ensures bound { IfOk result (λ n. n ≤ length piece.now) }
        ensures some { IfOk result (λ n. 0 < n) }
        ensures bytes { IfOk result
            (λ n. Appends (Some (sink_bytes self.old)) (Some (sink_bytes self.new)) (take n piece.now)) }
        ensures kept { OnErr result (Keeps (Some (sink_bytes self.old)) (Some (sink_bytes self.new))) }
        ensures no_fall { sink_faults self.old ≤ sink_faults self.new }
        ensures steady { OnOk result (sink_faults self.new ≡ sink_faults self.old) }
        ensures risen { OnErr result (Rose (sink_faults self.old) (sink_faults self.new)) }

        // When it fails, and what that leaves.
        ensures fails { IsErr result ↔ WriteFails self.old }
        ensures counted { sink_faults self.new ≡ faults_after result (sink_faults self.old) }

        // What goes on as before.
        ensures most { IfOk result (λ n.
            n ≡ min (sink_chunk self.old)
            (min (length piece.now) (sink_room self.old - length (sink_bytes self.old)))) }
        ensures chunk { sink_chunk self.new ≡ sink_chunk self.old }
        ensures room { sink_room self.new ≡ sink_room self.old }
        ensures listed { sink_fails self.new ≡ sink_fails self.old }
        ensures calls { sink_calls self.new ≡ one_more (sink_calls self.old) }
    {
        let call = self.calls;
        self.calls = call.saturating_add(1);
        let left = self.room - self.bytes.len();
        if left == 0 || self.fails.contains(&call) {
            self.faults = self.faults.saturating_add(1);
            return Err(Failed);
        }
        let count = self.chunk.min(piece.len()).min(left);
        self.bytes.extend_from_slice(&piece[..count]).unwrap();
        Ok(count)
    }
}
