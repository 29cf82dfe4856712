//! The types of what rows give.
ghost use Rattle.std.specs.Prelude.{◌≡◌};
ghost use Rattle.sl_typing.specs.Signatures as spec;
ghost use Rattle.sl_typing.specs.TypeOf as calls;

use sl_base::Form;
use sl_candidates::{first_type, last_type};
use sl_specs::ReturnType;
use sl_typing::ExprType;

/// The type of what a row gives, on an object that is const or isn't, of this form, for operands of these types. It takes no memory.
pub fn result_type(gives: ReturnType, is_const: bool, form: Form, types: &[ExprType]) -> ExprType
    ensures { result ≡ spec.result_type gives is_const form types.now }
{
    match gives {
        ReturnType::Nothing => ExprType::Nothing,
        ReturnType::Number(scalar) => ExprType::Scalar(scalar),
        ReturnType::Iterator => ExprType::Iterator(is_const, form),
        ReturnType::IteratorAndBool => ExprType::IteratorAndBool(form),
        ReturnType::IteratorPair => ExprType::IteratorPair(is_const, form),
        ReturnType::Element => ExprType::Element(!is_const),
        ReturnType::FirstArgument => first_type(types),
        ReturnType::Output => last_type(types),
        ReturnType::Appender => ExprType::Wrong,
    }
}

/// The type of what an algorithm gives, where it appends or doesn't, for operands of these types. It takes no memory.
pub fn algorithm_gives(appends: bool, gives: ReturnType, types: &[ExprType]) -> ExprType
    ensures { result ≡ calls.algorithm_gives appends gives types.now }
{
    match (appends, gives) {
        (true, ReturnType::Output) => ExprType::Nothing,
        (_, ReturnType::Appender) => first_type(types),
        _ => result_type(gives, false, Form::Vector, types),
    }
}
