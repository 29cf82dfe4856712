//! How iterators can't be moved.
ghost use Rattle.std.specs.Prelude.{◌≡◌};
ghost use Rattle.sl_model.specs.Memory.Forms as forms;
ghost use Rattle.sl_model.specs.LibraryCalls.Needs as needs;
ghost use Rattle.sl_model.specs.LibraryCalls.Needs.{first_failure};
ghost use Rattle.sl_model.specs.LibraryCalls.Operands as spec;
ghost use Rattle.sl_model.specs.LibraryCalls.Operators as operators;
ghost use Rattle.sl_model.specs.LibraryCalls.Situation.{Situation, place_of};
ghost use Rattle.sl_arguments.specs.Readings.{Reads, placed};
ghost use Rattle.sl_needs.specs.Failures.{told};
ghost use Rattle.sl_needs.specs.Means.Steps.{step_fails_at, movable_fails_at};

use crate::failure::{Failure, fails_if};
use crate::forms::is_hash;
use crate::places::invalid;
use sl_arguments::{Arguments, Position, Steps, container_in};
use sl_base::Form;
use sl_base::failures::OUT_OF_RANGE;
use sl_specs::Call;

// Whether a forward iterator would go back.
fn goes_back(steps: Steps, form: Form) -> bool
    ensures { result ≡ forms.is_moved_back form steps.by }
{
    is_hash(form) & (steps.by < 0)
}

// Where an iterator stands nowhere, or at no place so far from another one of its container, which has this size.
fn no_step(position: Option<Position>, size: usize, steps: Steps) -> Option<Failure>
    ensures { told result ≡ first_failure (step_fails_at (placed position) size steps.by) }
{
    match position {
        None => invalid(position, 1),
        Some(at) => fails_if(steps.from(size, at.index).is_none(), OUT_OF_RANGE, 1),
    }
}

// The same, where a forward iterator may not go back either.
fn no_move(position: Option<Position>, size: usize, form: Form, steps: Steps) -> Option<Failure>
    ensures { told result ≡ first_failure (movable_fails_at (placed position) size form steps.by) }
{
    match position {
        None => invalid(position, 1),
        Some(at) => {
            let nowhere = steps.from(size, at.index).is_none();
            fails_if(nowhere | goes_back(steps, form), OUT_OF_RANGE, 1)
        }
    }
}

// How far an iterator is moved forward, 1 where no argument tells it.
fn steps_given(arguments: &Arguments) -> Steps
    ensures { (s : Situation) → Reads arguments.now s → result.by ≡ spec.steps_given s }
{
    if 1 < arguments.count() {
        arguments.difference(2)
    } else {
        Steps { by: 1 }
    }
}

/// How far an iterator is moved by a call.
pub fn steps_of(arguments: &Arguments, call: Call) -> Steps
    ensures { (s : Situation) → Reads arguments.now s → result.by ≡ spec.steps_of call s }
{
    let given = steps_given(arguments);
    match call {
        Call::Prev => given.turned(),
        _ => given,
    }
}

/// How the first argument can't be moved so far by a call.
pub fn movable_failure(arguments: &Arguments, steps: Steps) -> Option<Failure>
    ensures { (s : Situation) → Reads arguments.now s →
        told result ≡ first_failure (needs.movable_fails s.memory (place_of s 1) steps.by) }
{
    let position = arguments.position(1);
    let container = container_in(position);
    no_move(
        position,
        arguments.size(container),
        arguments.form(container),
        steps,
    )
}

/// How the first operand can't be moved so far by an operator.
pub fn step_failure(arguments: &Arguments, steps: Steps) -> Option<Failure>
    ensures { (s : Situation) → Reads arguments.now s →
        told result ≡ first_failure (operators.step_fails s.memory (place_of s 1) steps.by) }
{
    let position = arguments.position(1);
    no_step(position, arguments.size(container_in(position)), steps)
}
