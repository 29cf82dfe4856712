//! Parameters that take their operands.
ghost use Rattle.std.specs.Prelude.{◌≡◌, ◌++◌, List, OnOk, length};
ghost use Rattle.sl_model.specs.LibraryCalls.Values.{Value as ValueData, number as number_value};
ghost use Rattle.sl_model.specs.Runs.Binding.{bind_all, bind_one};
ghost use Rattle.sl_model.specs.Runs.State.{State};
ghost use Rattle.sl_model.proofs.Gifts.{IsUsed};
ghost use Rattle.sl_slots.specs.Shown.{value_of};
ghost use Rattle.sl_frames.specs.Followed.{Mirrors};
ghost use Rattle.sl_frames.specs.Changed.{ScalarNamed};

use crate::variables::{ScalarVariable, Variables};
use sl_slots::{Pointer, Value};
use sl_syntax::typed::ParameterKind;
use std::alloc::AllocError;

impl Variables {
    /// Parameters take the operands from number `base` on in turn, as far as there are both. The operands stay. After
    /// AllocError nothing is said.
    pub fn bind_all(&mut self, parameters: &[ParameterKind], base: usize) -> Result<(), AllocError>
        ensures operands { OnOk result (self.new.store.operands ≡ self.old.store.operands) }
        ensures mirrors { OnOk result ((s : State) (held vs : List ValueData) → length held ≡ base →
            Mirrors self.old s (held ++ vs) → Mirrors self.new (bind_all parameters.now vs s) (held ++ vs)) }
    {
        let operands = self.store.operands.len().saturating_sub(base);
        let count = parameters.len().min(operands);
        for i in 0..count {
            let operand = self.store.operands[base + i];
            self.bind_one(parameters[i], operand)?;
        }
        Ok(())
    }

    // A parameter takes its operand.
    fn bind_one(&mut self, parameter: ParameterKind, operand: Value) -> Result<(), AllocError>
        ensures operands { OnOk result (self.new.store.operands ≡ self.old.store.operands) }
        ensures mirrors { OnOk result ((s : State) (held : List ValueData) (v : ValueData) →
            value_of s.memory v ≡ operand → IsUsed s.memory.fresh v → Mirrors self.old s held →
            Mirrors self.new (bind_one parameter v s) held) }
    {
        match operand {
            Value::Number(number) => self.bind_number(parameter, number),
            Value::Iterator(slot) => self.declare_pointer(Pointer::Iterator(slot)),
            Value::ScalarAt(location) => self.bind_scalar(location),
            Value::ContainerAt(location) => self.declare_container(location),
            _ => Ok(()),
        }
    }

    // A parameter takes a number.
    fn bind_number(&mut self, parameter: ParameterKind, number: i128) -> Result<(), AllocError>
        ensures operands { OnOk result (self.new.store.operands ≡ self.old.store.operands) }
        ensures mirrors { OnOk result ((s : State) (held : List ValueData) → Mirrors self.old s held →
            Mirrors self.new (bind_one parameter (number_value number) s) held) }
    {
        match parameter {
            ParameterKind::Value(ty) => self.declare_scalar(ScalarVariable {
                ty,
                value: Some(number),
            }),
            _ => Ok(()),
        }
    }

    // A parameter is a reference to the scalar at a location.
    fn bind_scalar(&mut self, location: usize) -> Result<(), AllocError>
        ensures { OnOk result (ScalarNamed location self.old self.new) }
    {
        self.frame.scalars.push(location)?;
        Ok(())
    }
}
