//! The tree of a program: a type for each rule of the grammar, a variant for each alternative, a field for each part in
//! its order.

mod declaration;
mod effect;
mod element;
mod expr;
mod function;
mod identifier;
mod statement;

pub use declaration::{ContainerType, Declaration, Initializer};
pub use effect::{Cond, Effect, Out, Print, Read};
pub use element::{Element, ElementType, ReferenceHead};
pub use expr::Expr;
pub use function::{Function, IteratorType, Param, Program, ResultType};
pub use identifier::Identifier;
pub use statement::{Block, First, Item, Stmt};
