//! Tries of intervals: each call of sl_intervals on intervals near 0 and near the ends of each type, and on the empty
//! one, against their members one by one. Prints how many tries there were, and how many differ.
#![tactic(auto)]

ghost use Rattle.std.specs.Prelude.{◌≢◌};
ghost use Rattle.sl_base.specs.declared.scalar.Scalar.{Scalar};

mod near;
mod numbers;
mod operator;
mod sets;
mod tally;
mod values;
mod widenings;

use crate::near::{count_near, is_new, near};
use crate::tally::Tally;
use sl_base::Scalar;
use std::io;

fn main(rt: HostRuntime) -> io::Result<()> {
    let mut tally = Tally::new();
    try_type(Scalar::Int, &mut tally);
    try_type(Scalar::Size, &mut tally);
    try_type(Scalar::Diff, &mut tally);
    let (tries, differ) = (tally.tries, tally.differ);
    println!(rt; "{tries} tries, {differ} differ")
}

// Tries each interval of a type, alone and with each other one.
fn try_type(ty: Scalar, tally: &mut Tally)
    requires { ty ≢ Scalar.Bool }
{
    for i in 0..count_near(ty) {
        let a = near(ty, i);
        if is_new(i, a) {
            values::try_conversions(a, tally);
            for j in 0..count_near(ty) {
                try_pair(ty, i, j, tally);
            }
        }
    }
}

// Tries two intervals of a type, by their numbers.
fn try_pair(ty: Scalar, i: usize, j: usize, tally: &mut Tally)
    requires { ty ≢ Scalar.Bool }
{
    let a = near(ty, i);
    let b = near(ty, j);
    if is_new(j, b) {
        operator::try_operators(ty, a, b, tally);
        sets::try_sets(a, b, tally);
        widenings::try_widening(ty, a, b, tally);
    }
}
