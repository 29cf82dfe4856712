use crate::typed::{Cond, Declaration, Effect, Expr, First, Taken};
use sl_base::{Place, Site};

/// `{..}`, and the site of its closing brace, where it declares a container.
#[cycle(typed_statement)]
#[derive(Drop)]
pub struct Block {
    pub site: Option<Site>,
    pub stmts: Vec<Stmt>,
}

/// A statement, or a declaration that stands among statements. Loops are numbered through the whole text, in source
/// order.
#[cycle(typed_statement)]
#[derive(Drop)]
pub enum Stmt {
    Block(Block),
    /// with its `;`
    Declaration(Declaration),
    If {
        cond: Cond,
        then: Box<Stmt>,
        otherwise: Option<Box<Stmt>>,
    },
    /// with its number as a loop
    While {
        number: u16,
        cond: Cond,
        body: Box<Stmt>,
    },
    /// with its number as a loop
    For {
        number: u16,
        first: First,
        cond: Cond,
        step: Option<Effect>,
        body: Box<Stmt>,
    },
    /// `for (int x : c)` and its like, at the `for`: its number as a loop, what x is, and the container's number and
    /// its name's. Two hidden iterators come into scope, and then x.
    RangeFor {
        number: u16,
        taken: Taken,
        container: u8,
        place: Place,
        name: u16,
        body: Box<Stmt>,
    },
    Break,
    Continue,
    Return(Option<Expr>),
    /// with its `;`
    Effect(Effect),
}
