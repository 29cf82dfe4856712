//! The variables of all calls in progress.
ghost use Rattle.std.specs.Prelude.{◌≡◌, ℕ, ℤ, [], List};
ghost use Rattle.sl_model.specs.Runs.Run.{empty_state};
ghost use Rattle.sl_frames.specs.Followed.{Follows};
ghost use Rattle.sl_frames.specs.Changed.{heights_of};

use crate::frame::Frame;
use crate::heights::Heights;
use sl_base::Scalar;
use sl_slots::Store;
use std::alloc::Global;

/// A scalar: its type, and its number where it is set.
#[derive(Clone, Copy)]
pub struct ScalarVariable {
    pub ty: Scalar,
    pub value: Option<i128>,
}

/// The frame of the function in progress, the scalars of all calls in progress by their locations, and the store, which
/// has their iterators, references and containers, and the operands that were evaluated and not used yet.
#[derive(Drop)]
pub struct Variables {
    pub frame: Frame,
    pub scalars: Vec<ScalarVariable>,
    pub store: Store,
}

impl Variables {
    /// No variables, as where a run begins. It takes no memory.
    pub fn new(alloc: Global) -> Variables
        ensures shows { (input : List ℤ) (picks : List ℕ) (steps : ℕ) →
            Follows result (empty_state input picks steps) [] }
    {
        Variables {
            frame: Frame::new(alloc),
            scalars: Vec::new(alloc),
            store: Store::new(alloc),
        }
    }

    /// How many variables all calls in progress have.
    pub fn heights(&self) -> Heights
        ensures { result ≡ heights_of self.now }
    {
        Heights {
            scalars: self.scalars.len(),
            containers: self.store.containers.len(),
            pointers: self.store.pointers.len(),
        }
    }
}
