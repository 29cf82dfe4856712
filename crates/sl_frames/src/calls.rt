//! Calls of functions.
ghost use Rattle.std.specs.Prelude.{◌≡◌, ◌++◌, List, IfOk, OnOk, length, take};
ghost use Rattle.sl_model.specs.LibraryCalls.Values.{Value as ValueData};
ghost use Rattle.sl_model.specs.Runs.Binding.{bound};
ghost use Rattle.sl_model.specs.Runs.Good.{IsGood};
ghost use Rattle.sl_model.specs.Runs.State.{State, leave};
ghost use Rattle.sl_frames.specs.Followed.{Follows, IsCaller};
ghost use Rattle.sl_frames.specs.Changed.{StacksCut, heights_of};

use crate::frame::Frame;
use crate::heights::Heights;
use crate::variables::Variables;
use sl_syntax::typed::ParameterKind;
use std::alloc::{AllocError, Global};
use std::mem::replace;

/// What a call comes back to: where the variables of the function that called are, and how many variables all calls in
/// progress had.
#[derive(Drop)]
pub struct Caller {
    pub frame: Frame,
    pub heights: Heights,
}

impl Variables {
    /// A call of a function with these parameters begins: they take the operands from number `base` on, which are held
    /// no longer, and nothing else is in scope. After AllocError nothing is said.
    pub fn enter_call(
        &mut self,
        alloc: Global,
        parameters: &[ParameterKind],
        base: usize,
    ) -> Result<Caller, AllocError>
        ensures frame { IfOk result (λ caller. caller.frame ≡ self.old.frame) }
        ensures heights { IfOk result (λ caller. caller.heights ≡ heights_of self.old) }
        ensures operands { OnOk result (self.new.store.operands.items ≡ take base self.old.store.operands.items) }
        ensures shows { IfOk result (λ caller. (s : State) (held vs : List ValueData) → length held ≡ base →
            IsGood (bound parameters.now vs s) → Follows self.old s (held ++ vs) →
            IsCaller caller s × Follows self.new (bound parameters.now vs s) held) }
    {
        let heights = self.heights();
        let frame = replace(&mut self.frame, Frame::new(alloc));
        self.bind_all(parameters, base)?;
        self.store.operands.truncate(base);
        Ok(Caller { frame, heights })
    }

    /// A call comes back: the variables that were in scope before are in scope again, and those of the call go.
    pub fn leave_call(&mut self, caller: Caller)
        ensures frame { self.new.frame ≡ caller.frame }
        ensures cut { StacksCut caller.heights 0 self.old self.new }
        ensures shows { (before s : State) (held : List ValueData) → IsCaller caller before →
            IsGood (leave 0 before s) → Follows self.old s held → Follows self.new (leave 0 before s) held }
    {
        let Caller { frame, heights } = caller;
        self.frame = frame;
        self.cut(&heights, 0);
    }
}
