//! Turns of steps.
ghost use Rattle.sl_cells.specs.Windows.{IsOfInts};

use crate::answers::try_answers;
use crate::choices::Choices;
use crate::edits::{erased, inserted, reversed, sorted, written};
use crate::list::List;
use crate::subject::Subject;
use crate::tally::Tally;

/// Constants to stop at, which aren't in order and not all ints.
const CONSTANTS: [i128; 5] = [4, -3, 4294967296, 0, 2147483640];

/// Tries cells, from those without an element on.
pub fn try_turn<const N: usize>(none: &Subject<N>, choices: &mut Choices, tally: &mut Tally)
    requires { IsOfInts none.now.cells }
{
    let mut subject = stepped(none, choices);
    for _step in 0..N.saturating_mul(4).saturating_add(16) {
        try_answers(&subject, choices, tally);
        subject = stepped(&subject, choices);
    }
}

// After one step.
fn stepped<const N: usize>(old: &Subject<N>, choices: &mut Choices) -> Subject<N>
    requires { IsOfInts old.now.cells }
    ensures { IsOfInts result.cells }
{
    if old.list.len() >= choices.room {
        return shortened(old, choices);
    }
    match choices.below(12) {
        0 => sorted(old),
        1 => joined(old, &other(old, choices), choices),
        2 => widened(old, &other(old, choices), choices),
        _ => edited(old, choices),
    }
}

// After one that leaves no more elements.
fn shortened<const N: usize>(old: &Subject<N>, choices: &mut Choices) -> Subject<N>
    requires { IsOfInts old.now.cells }
    ensures { IsOfInts result.cells }
{
    match choices.below(4) {
        0 => sorted(old),
        1 => written(old, choices),
        2 => reversed(old),
        _ => erased(old, choices),
    }
}

// After one on some elements, or a reversal.
fn edited<const N: usize>(old: &Subject<N>, choices: &mut Choices) -> Subject<N>
    requires { IsOfInts old.now.cells }
    ensures { IsOfInts result.cells }
{
    match choices.below(10) {
        0 => erased(old, choices),
        1 => written(old, choices),
        2 => reversed(old),
        _ => inserted(old, choices),
    }
}

// What is joined with it: the same list, or another where not all has to stay known.
fn other<const N: usize>(old: &Subject<N>, choices: &mut Choices) -> Subject<N>
    requires { IsOfInts old.now.cells }
    ensures { IsOfInts result.cells }
{
    if choices.keeps_all() {
        return reversed(&reversed(old));
    }
    edited(old, choices)
}

// Either of two.
fn joined<const N: usize>(a: &Subject<N>, b: &Subject<N>, choices: &mut Choices) -> Subject<N>
    requires first { IsOfInts a.now.cells }
    requires second { IsOfInts b.now.cells }
    ensures { IsOfInts result.cells }
{
    Subject {
        cells: a.cells.join(&b.cells),
        list: either(&a.list, &b.list, choices),
        known: a.known & b.known & a.list.is_same(&b.list),
        ascends: a.ascends & b.ascends,
    }
}

// Either of two, where the first is widened by the second.
fn widened<const N: usize>(a: &Subject<N>, b: &Subject<N>, choices: &mut Choices) -> Subject<N>
    requires first { IsOfInts a.now.cells }
    requires second { IsOfInts b.now.cells }
    ensures { IsOfInts result.cells }
{
    Subject {
        cells: a.cells.widen(&b.cells, &CONSTANTS),
        list: either(&a.list, &b.list, choices),
        known: a.known & b.known & a.list.is_same(&b.list),
        ascends: a.ascends & b.ascends,
    }
}

// One of two lists.
fn either(a: &List, b: &List, choices: &mut Choices) -> List {
    if choices.below(2) == 0 {
        a.erased(0, 0)
    } else {
        b.erased(0, 0)
    }
}
