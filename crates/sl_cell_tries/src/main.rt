//! Tries of cells: each call of sl_cells in turns that are chosen by a fixed sequence of numbers, beside the same step on
//! a plain list of ints. Where all is given as single numbers and N elements are enough, the cells have to answer with the
//! list's own, and else with intervals that hold them. Prints how many tries there were, and how many differ.
#![tactic(auto)]

ghost use Rattle.sl_cells.specs.Windows.{IsOfInts};

mod answers;
mod choices;
mod edits;
mod list;
mod orders;
mod pairs;
mod places;
mod steps;
mod subject;
mod tally;

use crate::choices::Choices;
use crate::subject::{Subject, empty};
use crate::tally::Tally;
use std::io;

/// How many turns there are of each sort of cells.
const TURNS: usize = 40;

fn main(rt: HostRuntime) -> io::Result<()> {
    let mut choices = Choices::new();
    let mut tally = Tally::new();
    try_cells::<1>(&empty(), &mut choices, &mut tally);
    try_cells::<16>(&empty(), &mut choices, &mut tally);
    try_cells::<64>(&empty(), &mut choices, &mut tally);
    let (tries, differ) = (tally.tries, tally.differ);
    println!(rt; "{tries} tries, {differ} differ")
}

// Tries cells that know at most N elements, in turns that begin without an element.
fn try_cells<const N: usize>(none: &Subject<N>, choices: &mut Choices, tally: &mut Tally)
    requires { IsOfInts none.now.cells }
{
    for turn in 0..TURNS {
        choices.begin(turn % 4, N);
        steps::try_turn(none, choices, tally);
    }
}
