ghost use Rattle.std.specs.Prelude.{◌≡◌, ◌≤◌, length};

use crate::need::Need;
use arrayvec::ArrayVec;
use std::marker::Model;

/// What a call needs, at most three. A contract sees the list.
#[derive(Drop)]
pub struct Needs {
    needs: ArrayVec<Need, 3>,
}

impl Model for Needs {
    ghost use Rattle.std.specs.Prelude.{List};
    ghost use Rattle.sl_specs.specs.declared.need.Need.{Need};

    ghost Value = { List Need };

    ghost view = { λ n. n.needs.items };
}

impl Needs {
    /// These needs, at most three. It takes no memory.
    pub fn new(needs: &[Need]) -> Needs
        requires { length needs.now ≤ 3 }
        ensures { result ≡ needs.now }
    {
        let mut copied = ArrayVec::new();
        copied.try_extend_from_slice(needs).unwrap();
        Needs { needs: copied }
    }

    /// The needs in order.
    pub fn as_slice(&self) -> &[Need]
        ensures { result.now ≡ self.now }
    {
        self.needs.as_slice()
    }
}
