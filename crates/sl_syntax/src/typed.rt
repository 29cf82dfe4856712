//! The typed tree of a text: its program with its names resolved, its types known and its conversions written out.
//! Variables, functions, rows of the library, sites, loops and names are numbers, from 0.
//!
//! The variables of a function are numbered in the order in which they come into scope: scalars, containers and
//! iterators each by themselves, references to elements among the iterators, and the parameters first. When a variable
//! goes out of scope, its number is free again. So a declaration doesn't say its number.

mod callee;
mod cond;
mod declaration;
mod effect;
mod element;
mod expr;
mod function;
mod head;
mod left;
mod operator;
mod parameter;
mod statement;
mod step;
mod variable;

pub use callee::Callee;
pub use cond::Cond;
pub use declaration::{Declaration, First};
pub use effect::{Effect, Printed};
pub use element::{ElementPart, Taken};
pub use expr::Expr;
pub use function::Function;
pub use head::Head;
pub use left::Left;
pub use operator::Operator;
pub use parameter::ParameterKind;
use sl_base::{Items, Name, Place};
pub use statement::{Block, Stmt};
pub use step::{Fix, Step};
pub use variable::{Variable, VariableKind};

/// A typed text: its functions and which of them is `main`; the places of its sites and of the words of its loops, by
/// their numbers, both in source order; and the names of its variables, each once, in the order in which they are
/// first declared. The constants are 0, 1, each literal and its two neighbours, each once and ascending; `true` and
/// `false` count as the literals 1 and 0.
#[derive(Drop)]
pub struct Typed {
    pub functions: Vec<Function>,
    pub main: u16,
    pub sites: Items<Place>,
    pub loops: Items<Place>,
    pub names: Items<Name>,
    pub constants: Items<i128>,
}
