//! Which needs of an operator fail.
ghost use Rattle.std.specs.Prelude.{◌≡◌, ◌++◌, List, ℕ};
ghost use Rattle.sl_model.specs.LibraryCalls.Needs.{first_failure, dereference_fails};
ghost use Rattle.sl_model.specs.LibraryCalls.Operators as spec;
ghost use Rattle.sl_model.specs.LibraryCalls.Rows.{row_of_operator};
ghost use Rattle.sl_model.specs.LibraryCalls.Situation.{Situation, place_of};
ghost use Rattle.sl_arguments.specs.Readings.{Reads, placed};
ghost use Rattle.sl_needs.specs.Failures.{told};
ghost use Rattle.sl_needs.specs.Means.Steps.{dereference_at};

use crate::failure::{Failure, fails_if};
use crate::moves::step_failure;
use crate::places::{invalid, no_pair};
use sl_arguments::{Arguments, Position, Steps, container_in};
use sl_base::failures::END_ITERATOR;
use sl_syntax::typed::Operator;

// Where the first operand doesn't stand on an element of its container, which has this size.
fn no_element_there(position: Option<Position>, size: usize) -> Option<Failure>
    ensures { told result ≡ first_failure (dereference_at (placed position) size 1) }
{
    match position {
        None => invalid(position, 1),
        Some(at) => fails_if(at.index == size, END_ITERATOR, 1),
    }
}

/// How far an operator moves its first operand, 1 where it moves none.
pub fn steps_by(arguments: &Arguments, operator: Operator) -> Steps
    ensures { (s : Situation) → Reads arguments.now s → result.by ≡ spec.steps_by operator s }
{
    match operator {
        Operator::Decrement => Steps { by: -1 },
        Operator::Add | Operator::AddAssign => arguments.difference(2),
        Operator::Subtract | Operator::SubtractAssign => arguments.difference(2).turned(),
        _ => Steps { by: 1 },
    }
}

// How the first operand can't be dereferenced.
fn dereference_failure(arguments: &Arguments) -> Option<Failure>
    ensures { (s : Situation) → Reads arguments.now s →
        told result ≡ first_failure (dereference_fails s.memory (place_of s 1) 1) }
{
    let position = arguments.position(1);
    no_element_there(position, arguments.size(container_in(position)))
}

// How the operands don't stand in one container.
fn pair_failure(arguments: &Arguments) -> Option<Failure>
    ensures { (s : Situation) → Reads arguments.now s →
        told result ≡ first_failure (spec.pair_fails (place_of s 1) (place_of s 2)) }
{
    no_pair(arguments.position(1), arguments.position(2), 1)
}

/// The failure by which an operator ends, if a need fails.
pub fn operator_failure(arguments: &Arguments, operator: Operator) -> Option<Failure>
    ensures { (s : Situation) (name : List ℕ) → Reads arguments.now s →
        told result ≡ first_failure ((row_of_operator name operator).fails s) }
{
    match operator {
        Operator::Dereference | Operator::ArrowFirst | Operator::ArrowSecond => dereference_failure(
            arguments,
        ),
        Operator::Difference | Operator::Compare(_) => pair_failure(arguments),
        _ => step_failure(arguments, steps_by(arguments, operator)),
    }
}
