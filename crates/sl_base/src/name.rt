ghost use Rattle.std.specs.Prelude.{◌≡◌, ◌<◌, ◌≤◌, length};

use crate::limits::NAME_BYTES;
use arrayvec::ArrayVec;
use std::marker::Model;

/// The bytes of a name, 1 to 64 of them. A contract sees the list of bytes.
#[derive(Drop)]
pub struct Name {
    bytes: ArrayVec<u8, NAME_BYTES>,
}

impl Model for Name {
    ghost use Rattle.std.specs.Prelude.{ℕ, ◌<◌, ◌≤◌, List, length};
    ghost use Rattle.sl_base.specs.declared.limits.TheConstants.{NAME_BYTES};

    ghost Value = { List ℕ };

    ghost view = { λ n. n.bytes.items };

    ghost invariant = { λ n. (0 < length n.bytes.items) × (length n.bytes.items ≤ NAME_BYTES) };
}

impl Name {
    /// The name with these bytes, of which there are 1 to 64. It takes no memory.
    pub fn new(bytes: &[u8]) -> Name
        requires some { 0 < length bytes.now }
        requires short { length bytes.now ≤ NAME_BYTES }
        ensures { result ≡ bytes.now }
    {
        let mut copied = ArrayVec::new();
        copied.try_extend_from_slice(bytes).unwrap();
        Name { bytes: copied }
    }

    /// The bytes of the name.
    pub fn as_slice(&self) -> &[u8]
        ensures value { result.now ≡ self.now }
        ensures some { 0 < length result.now }
        ensures short { length result.now ≤ NAME_BYTES }
    {
        self.bytes.as_slice()
    }
}
