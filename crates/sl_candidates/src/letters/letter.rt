//! One letter of a row.
ghost use Rattle.std.specs.Prelude.{◌≡◌, if◌then◌else◌};
ghost use Rattle.std.specs.List.{list_all};
ghost use Rattle.sl_typing.specs.Arguments as arguments;
ghost use Rattle.sl_typing.specs.Order as order;
ghost use Rattle.sl_typing.specs.Signatures as spec;

use crate::letters::operands::{first_type, range_type, single_type};
use sl_base::{Form, Scalar};
use sl_specs::Letter;
use sl_typing::ExprType;

/// A letter as it stands where the call appends to a container in place of writing to an output, or doesn't.
pub fn seen_letter(appends: bool, letter: Letter) -> Letter
    ensures { result ≡ (if appends then spec.appending letter else letter) }
{
    if appends & is_output(letter) {
        Letter::AppendedContainer
    } else {
        letter
    }
}

// Whether a letter is an output.
pub fn is_output(letter: Letter) -> bool
    ensures { result ≡ spec.is_output letter }
{
    matches!(letter, Letter::Output)
}

// Whether arguments of a letter are written through.
pub fn is_written_letter(letter: Letter) -> bool
    ensures { result ≡ order.is_written_letter letter }
{
    matches!(
        letter,
        Letter::WrittenRange | Letter::RandomAccessRange | Letter::Output
    )
}

// Whether a letter stands for the elements of a list in braces.
pub fn is_list(letter: Letter) -> bool
    ensures { result ≡ arguments.is_list letter }
{
    matches!(letter, Letter::InitializerList)
}

/// How many of these operands a letter stands for: a list or an optional one for all that are left, a range for two.
pub fn width(letter: Letter, types: &[ExprType]) -> usize
    ensures { result ≡ spec.width letter types.now }
{
    match letter {
        Letter::InitializerList | Letter::OptionalDistance => types.len(),
        Letter::OwnRange
        | Letter::IntRange
        | Letter::SecondIntRange
        | Letter::WrittenRange
        | Letter::RandomAccessRange
        | Letter::AnyRange => 2,
        _ => 1,
    }
}

// Whether operands of these types are taken for a letter, in a call on an object of this form.
pub fn letter_takes(form: Form, letter: Letter, types: &[ExprType]) -> bool
    ensures { result ≡ arguments.letter_takes form letter types.now }
{
    match letter {
        Letter::Position | Letter::SplicedPosition => single_type(types).is_iterator_of(form),
        Letter::OwnRange => range_type(types).is_iterator_of(form),
        Letter::IntRange
        | Letter::SecondIntRange
        | Letter::WrittenRange
        | Letter::RandomAccessRange => { range_type(types).is_int_iterator() }
        Letter::AnyRange => range_type(types).is_iterator(),
        Letter::Count | Letter::Element | Letter::Key | Letter::Distance => single_type(
            types,
        ).is_number(),
        Letter::InitializerList => are_listed(types),
        Letter::Container | Letter::ChangedContainer => single_type(types).is_container_of(form),
        Letter::AppendedContainer => single_type(types).is_sequence(),
        Letter::Int => single_type(types).is_scalar(Scalar::Int),
        Letter::Output => single_type(types).is_int_iterator(),
        Letter::IteratorVariable | Letter::Iterator | Letter::BidirectionalIterator => single_type(
            types,
        ).is_iterator(),
        Letter::OptionalDistance => types.is_empty() | single_type(types).is_number(),
    }
}

// Whether these are types of elements of a list in braces.
fn are_listed(types: &[ExprType]) -> bool
    ensures { result ≡ list_all arguments.is_listed types.now }
{
    types.iter().all(|own| own.is_listed())
}

// Whether what a letter stands for is written, and is const.
pub fn letter_writes_const(letter: Letter, types: &[ExprType]) -> bool
    ensures { result ≡ arguments.letter_writes_const letter types.now }
{
    match letter {
        Letter::WrittenRange | Letter::RandomAccessRange | Letter::Output => first_type(
            types,
        ).is_reading_iterator(),
        Letter::ChangedContainer | Letter::AppendedContainer => first_type(
            types,
        ).is_const_container(),
        _ => false,
    }
}

// Whether the iterators that a letter stands for must be random access iterators, or go back, and don't.
pub fn letter_is_weak(letter: Letter, types: &[ExprType]) -> bool
    ensures { result ≡ arguments.letter_is_weak letter types.now }
{
    match letter {
        Letter::RandomAccessRange => !types.is_empty() & !first_type(types).is_random(),
        Letter::BidirectionalIterator => !types.is_empty() & !first_type(types).is_bidirectional(),
        _ => false,
    }
}
