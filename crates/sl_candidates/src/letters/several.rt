//! The letters of a row, in turn.
ghost use Rattle.std.specs.Prelude.{◌≡◌};
ghost use Rattle.std.specs.List.{list_any};
ghost use Rattle.sl_typing.specs.Arguments as spec;
ghost use Rattle.sl_typing.specs.Candidates.{end_in_output};
ghost use Rattle.sl_typing.specs.Order as order;

use crate::letters::letter::{
    is_output, is_written_letter, letter_is_weak, letter_takes, letter_writes_const, seen_letter,
    width,
};
use crate::letters::operands::{behind, front};
use sl_base::Form;
use sl_specs::Letter;
use sl_typing::ExprType;

/// Whether letters take operands of these types in turn, in a call on an object of this form, where the call appends to a
/// container in place of writing to an output, or doesn't. It takes no memory.
pub fn letters_take(form: Form, appends: bool, letters: &[Letter], types: &[ExprType]) -> bool
    ensures { result ≡ spec.letters_take form (spec.letters_seen appends letters.now) types.now }
{
    let mut left = types;
    let mut fits = true;
    for letter in letters {
        let own = seen_letter(appends, *letter);
        let count = width(own, left);
        fits = fits & letter_takes(form, own, front(left, count));
        left = behind(left, count);
    }
    fits & left.is_empty()
}

/// Whether a call with these letters would write what is const. It takes no memory.
pub fn letters_write_const(appends: bool, letters: &[Letter], types: &[ExprType]) -> bool
    ensures { result ≡ spec.letters_write_const (spec.letters_seen appends letters.now) types.now }
{
    let mut left = types;
    let mut writes = false;
    for letter in letters {
        let own = seen_letter(appends, *letter);
        let count = width(own, left);
        writes = writes | letter_writes_const(own, front(left, count));
        left = behind(left, count);
    }
    writes
}

/// Whether a call with these letters needs a stronger iterator. It takes no memory.
pub fn letters_are_weak(appends: bool, letters: &[Letter], types: &[ExprType]) -> bool
    ensures { result ≡ spec.letters_are_weak (spec.letters_seen appends letters.now) types.now }
{
    let mut left = types;
    let mut weak = false;
    for letter in letters {
        let own = seen_letter(appends, *letter);
        let count = width(own, left);
        weak = weak | letter_is_weak(own, front(left, count));
        left = behind(left, count);
    }
    weak
}

/// Whether letters end with an output. It takes no memory.
pub fn ends_in_output(letters: &[Letter]) -> bool
    ensures { result ≡ end_in_output letters.now }
{
    match letters.last() {
        Some(last) => is_output(*last),
        None => false,
    }
}

// Whether arguments of some letter are written through.
pub fn some_written(letters: &[Letter]) -> bool
    ensures { result ≡ list_any order.is_written_letter letters.now }
{
    letters.iter().any(|letter| is_written_letter(*letter))
}
