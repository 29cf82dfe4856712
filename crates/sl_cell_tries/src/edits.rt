//! One step on a list and its cells.
ghost use Rattle.sl_cells.specs.Windows.{IsOfInts};

use crate::choices::Choices;
use crate::pairs::is_single;
use crate::subject::Subject;

/// With one more element at any place.
pub fn inserted<const N: usize>(old: &Subject<N>, choices: &mut Choices) -> Subject<N>
    requires { IsOfInts old.now.cells }
    ensures { IsOfInts result.cells }
{
    let length = old.list.len();
    let place = choices.below(length.saturating_add(1));
    let x = choices.pair();
    let at = choices.near(place);
    let key = choices.around(x.key);
    let value = choices.around(x.value);
    let single = is_single(at) & is_single(key) & is_single(value);
    Subject {
        cells: old.cells.insert(at, key, value),
        list: old.list.inserted(place, x),
        known: old.known & single & (length < N),
        ascends: false,
    }
}

/// With another element in the place of one, if there is one.
pub fn written<const N: usize>(old: &Subject<N>, choices: &mut Choices) -> Subject<N>
    requires { IsOfInts old.now.cells }
    ensures { IsOfInts result.cells }
{
    let length = old.list.len();
    if length == 0 {
        return inserted(old, choices);
    }
    let place = choices.below(length);
    let x = choices.pair();
    let at = choices.near(place);
    let key = choices.around(x.key);
    let value = choices.around(x.value);
    let single = is_single(at) & is_single(key) & is_single(value);
    Subject {
        cells: old.cells.write(at, key, value),
        list: old.list.written(place, x),
        known: old.known & single,
        ascends: false,
    }
}

/// Without the elements of a part of at most three.
pub fn erased<const N: usize>(old: &Subject<N>, choices: &mut Choices) -> Subject<N>
    requires { IsOfInts old.now.cells }
    ensures { IsOfInts result.cells }
{
    let last = choices.below(old.list.len().saturating_add(1));
    let first = last.saturating_sub(choices.below(4));
    let from = choices.near(first);
    let to = choices.near(last);
    Subject {
        cells: old.cells.erase(from, to),
        list: old.list.erased(first, last),
        known: old.known & is_single(from) & is_single(to),
        ascends: old.ascends,
    }
}

/// From the last element to the first.
pub fn reversed<const N: usize>(old: &Subject<N>) -> Subject<N>
    requires { IsOfInts old.now.cells }
    ensures { IsOfInts result.cells }
{
    Subject {
        cells: old.cells.reverse(),
        list: old.list.reversed(),
        known: old.known,
        ascends: false,
    }
}

/// Sorted by keys.
pub fn sorted<const N: usize>(old: &Subject<N>) -> Subject<N>
    requires { IsOfInts old.now.cells }
    ensures { IsOfInts result.cells }
{
    Subject {
        cells: old.cells.sort(),
        list: old.list.sorted(),
        known: old.known,
        ascends: true,
    }
}
