//! Whether the operands of a call are of the sorts that it takes.
ghost use Rattle.std.specs.Prelude.{◌≡◌, map, ℕ, List, Option, ◌∷◌, [], false};
ghost use Rattle.sl_specs.specs.Entries.{entry_row};
ghost use Rattle.sl_model.specs.LibraryCalls.Operands.{all_sorts, are_of, an_iterator, a_number};
ghost use Rattle.sl_model.specs.LibraryCalls.Operators.{operator_sorts};
ghost use Rattle.sl_model.specs.LibraryCalls.Rows.{meaning_of};
ghost use Rattle.sl_model.specs.LibraryCalls.Situation.{Situation};
ghost use Rattle.sl_arguments.specs.Readings.{Reads};
ghost use Rattle.sl_arguments.specs.Means.Sorts as spec;
ghost use Rattle.sl_arguments.specs.Means.Sorts.{are_shown, forms_of, concluded, is_list, is_nil, all_number, takes_two};
ghost use Rattle.sl_specs.specs.declared.letter.Letter.{Letter as LetterData};
ghost use Rattle.sl_model.specs.LibraryCalls.Operands.{Sort};

use crate::arguments::Arguments;
use crate::shape::{is_iterator, is_number};
use sl_base::Form;
use sl_slots::Value;
use sl_specs::{Entry, Letter};
use sl_syntax::typed::Operator;

/// What a letter makes of the values that are left: the answer for all of them, or those that are left behind its own.
pub enum Taken<'a> {
    Whole(bool),
    Left(&'a [Value]),
}

// Whether a letter stands for all values that are left.
fn is_list(letter: Letter) -> bool
    ensures { result ≡ spec.is_list letter }
{
    matches!(letter, Letter::InitializerList)
}

// Whether the argument of a letter may be missing, as the last.
fn is_optional(letter: Letter) -> bool
    ensures { result ≡ spec.is_optional letter }
{
    matches!(letter, Letter::OptionalDistance)
}

// Whether each value is a number.
fn all_numbers(values: &[Value]) -> bool
    ensures { result ≡ all_number values.now }
{
    for value in values {
        if !is_number(*value) {
            return false;
        }
    }
    true
}

// Whether a letter stands for two arguments.
fn stands_for_two(letter: Letter) -> bool
    ensures { result ≡ takes_two letter }
{
    matches!(
        letter,
        Letter::OwnRange
            | Letter::IntRange
            | Letter::SecondIntRange
            | Letter::WrittenRange
            | Letter::RandomAccessRange
            | Letter::AnyRange
    )
}

// Takes the second value of two, which has to be an iterator.
fn take_iterator(values: &[Value]) -> Taken<'_>
    ensures { (sorts : List Sort) (f : ℕ → Option Form) →
        are_shown f (an_iterator ∷ sorts) values.now ≡ concluded f sorts result }
{
    match values {
        [first, rest @ ..] => {
            if is_iterator(*first) {
                Taken::Left(rest)
            } else {
                Taken::Whole(false)
            }
        }
        [] => Taken::Whole(false),
    }
}

// Whether these are an iterator and a number.
fn are_iterator_and_number(values: &[Value]) -> bool
    ensures { (f : ℕ → Option Form) → result ≡ are_shown f (an_iterator ∷ a_number ∷ []) values.now }
{
    match values {
        [first, second] => is_iterator(*first) & is_number(*second),
        _ => false,
    }
}

// Whether these are two iterators.
fn are_iterators(values: &[Value]) -> bool
    ensures { (f : ℕ → Option Form) → result ≡ are_shown f (an_iterator ∷ an_iterator ∷ []) values.now }
{
    match values {
        [first, second] => is_iterator(*first) & is_iterator(*second),
        _ => false,
    }
}

// Whether these are one iterator.
fn is_one_iterator(values: &[Value]) -> bool
    ensures { (f : ℕ → Option Form) → result ≡ are_shown f (an_iterator ∷ []) values.now }
{
    match values {
        [first] => is_iterator(*first),
        _ => false,
    }
}

impl<'a> Arguments<'a> {
    // Takes the values that a letter stands for, at least one.
    fn take_some<'b>(
        &self,
        form: Form,
        appends: bool,
        letter: Letter,
        first: Value,
        rest: &'b [Value],
    ) -> Taken<'b>
        requires { is_list letter ≡ false }
        ensures { (xs : List LetterData) → let f = forms_of self.now.containers.now in
            are_shown f (all_sorts form appends (letter ∷ xs)) (first ∷ rest.now) ≡ concluded f (all_sorts form appends xs) result }
    {
        if !self.is_first(form, appends, letter, first) {
            return Taken::Whole(false);
        }
        if stands_for_two(letter) {
            take_iterator(rest)
        } else {
            Taken::Left(rest)
        }
    }

    // Takes the values that a letter stands for, which may be the last.
    fn take<'b>(
        &self,
        form: Form,
        appends: bool,
        letter: Letter,
        last: bool,
        values: &'b [Value],
    ) -> Taken<'b>
        ensures { (xs : List LetterData) → last ≡ is_nil xs → let f = forms_of self.now.containers.now in
            are_shown f (all_sorts form appends (letter ∷ xs)) values.now ≡ concluded f (all_sorts form appends xs) result }
    {
        if is_list(letter) {
            return Taken::Whole(all_numbers(values));
        }
        match values {
            [first, rest @ ..] => self.take_some(form, appends, letter, *first, rest),
            [] => Taken::Whole(last & is_optional(letter)),
        }
    }

    // Whether all values are of the sorts of these letters, in a call on a form.
    fn fit_letters(&self, form: Form, appends: bool, letters: &[Letter]) -> bool
        ensures { let f = forms_of self.now.containers.now in
            result ≡ are_shown f (all_sorts form appends letters.now) self.now.values.now }
    {
        let mut rest = self.values();
        for i in 0..letters.len() {
            match self.take(form, appends, letters[i], i + 1 == letters.len(), rest) {
                Taken::Whole(fit) => return fit,
                Taken::Left(values) => rest = values,
            }
        }
        rest.is_empty()
    }

    /// Whether the arguments are of the sorts that a row takes, where its output is an appender or isn't. It takes no memory.
    pub fn fit(&self, entry: &Entry, appends: bool) -> bool
        ensures { (s : Situation) → Reads self.now s →
            result ≡ are_of s.memory (meaning_of appends (entry_row entry.now)).operands s.values }
    {
        match entry.form {
            Some(form) => self.fit_letters(form, false, entry.signature.letters),
            None => self.fit_letters(Form::Vector, appends, entry.signature.letters),
        }
    }

    // Whether the arguments are what an operator takes, by the store alone.
    fn fit_sorts(&self, operator: Operator) -> bool
        ensures { result ≡ are_shown (forms_of self.now.containers.now) (operator_sorts operator) self.now.values.now }
    {
        match operator {
            Operator::Add | Operator::AddAssign | Operator::Subtract | Operator::SubtractAssign => {
                are_iterator_and_number(self.values())
            }
            Operator::Difference | Operator::Compare(_) => are_iterators(self.values()),
            _ => is_one_iterator(self.values()),
        }
    }

    /// Whether the arguments are of the sorts that an operator takes. It takes no memory.
    pub fn fit_operator(&self, operator: Operator) -> bool
        ensures { (s : Situation) → Reads self.now s → result ≡ are_of s.memory (operator_sorts operator) s.values }
    {
        self.fit_sorts(operator)
    }
}
