use crate::tree::{Cond, Declaration, Effect, Element, Expr, Identifier};
use sl_base::{Place, Scalar};

/// `{..}`, at its first brace, and the place of its closing brace.
#[cycle(statement)]
#[derive(Drop)]
pub struct Block {
    pub place: Place,
    pub items: Vec<Item>,
    pub close: Place,
}

/// An item of a block.
#[cycle(statement)]
#[derive(Drop)]
pub enum Item {
    /// with its `;`
    Declaration(Declaration),
    Statement(Stmt),
}

/// The first part of a `for`.
#[derive(Drop)]
pub enum First {
    /// `int i = ..`, at its first token
    Scalar {
        place: Place,
        scalar: Scalar,
        name: Identifier,
        value: Expr,
    },
    /// `auto i = ..`, at its first token
    Auto {
        place: Place,
        name: Identifier,
        value: Expr,
    },
    Effect(Effect),
}

/// A statement, at its first token.
#[cycle(statement)]
#[derive(Drop)]
pub enum Stmt {
    Block(Block),
    If {
        place: Place,
        cond: Cond,
        then: Box<Stmt>,
        otherwise: Option<Box<Stmt>>,
    },
    While {
        place: Place,
        cond: Cond,
        body: Box<Stmt>,
    },
    For {
        place: Place,
        first: Option<First>,
        cond: Option<Cond>,
        step: Option<Effect>,
        body: Box<Stmt>,
    },
    /// `for (int x : v)`, `for (const auto& x : v)`
    RangeFor {
        place: Place,
        element: Element,
        name: Identifier,
        container: Identifier,
        body: Box<Stmt>,
    },
    Break {
        place: Place,
    },
    Continue {
        place: Place,
    },
    Return {
        place: Place,
        value: Option<Expr>,
    },
    Effect {
        place: Place,
        effect: Effect,
    },
}
