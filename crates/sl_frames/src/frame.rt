//! Where the variables of a function are.
ghost use Rattle.std.specs.Prelude.{◌≡◌, slice_index};
ghost use Rattle.sl_model.specs.Runs.Binding.{no_frame};
ghost use Rattle.sl_frames.specs.Followed.{frame_of};
ghost use Rattle.sl_frames.specs.Changed.{frame_cut, frame_heights};

use crate::heights::Heights;
use std::alloc::Global;

/// Where the variables in scope of one function are: for each number of a variable its location, references among the
/// iterators.
#[derive(Drop)]
pub struct Frame {
    pub scalars: Vec<usize>,
    pub containers: Vec<usize>,
    pub pointers: Vec<usize>,
}

impl Frame {
    /// No variable is in scope. It takes no memory.
    pub fn new(alloc: Global) -> Frame
        ensures { frame_of result ≡ no_frame }
    {
        Frame {
            scalars: Vec::new(alloc),
            containers: Vec::new(alloc),
            pointers: Vec::new(alloc),
        }
    }

    /// How many variables are in scope.
    pub fn heights(&self) -> Heights
        ensures { result ≡ frame_heights self.now }
    {
        Heights {
            scalars: self.scalars.len(),
            containers: self.containers.len(),
            pointers: self.pointers.len(),
        }
    }

    /// The variables from these numbers on go out of scope.
    pub fn cut(&mut self, heights: &Heights)
        ensures { frame_of self.new ≡ frame_cut heights.now (frame_of self.old) }
    {
        self.scalars.truncate(heights.scalars);
        self.containers.truncate(heights.containers);
        self.pointers.truncate(heights.pointers);
    }
}

/// The location of a variable by its number, 0 where it isn't in scope.
pub fn location(locations: &[usize], number: usize) -> usize
    ensures { result ≡ slice_index locations.now number }
{
    if number < locations.len() {
        locations[number]
    } else {
        0
    }
}
