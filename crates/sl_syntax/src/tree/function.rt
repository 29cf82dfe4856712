use crate::tree::{Block, ContainerType, Identifier};
use sl_base::{Place, Scalar};

/// The type of an iterator, at its first token: `std::vector<int>::iterator`. The name behind the `::` may be any.
#[derive(Drop)]
pub struct IteratorType {
    pub container: ContainerType,
    pub name: Identifier,
}

/// What a function gives back.
#[derive(Drop)]
pub enum ResultType {
    Void,
    Scalar(Scalar),
    Iterator(IteratorType),
}

/// A parameter, at its first token.
#[derive(Drop)]
pub enum Param {
    /// `int x`
    Value {
        place: Place,
        scalar: Scalar,
        name: Identifier,
    },
    /// `int& x`
    Reference {
        place: Place,
        scalar: Scalar,
        name: Identifier,
    },
    /// `std::vector<int>& v`
    Container {
        container: ContainerType,
        name: Identifier,
    },
    /// `const std::vector<int>& v`
    ConstContainer {
        place: Place,
        container: ContainerType,
        name: Identifier,
    },
    /// `std::vector<int>::iterator it`
    Iterator {
        iterator: IteratorType,
        name: Identifier,
    },
}

/// A function, at its first token.
#[derive(Drop)]
pub struct Function {
    pub place: Place,
    pub result: ResultType,
    pub name: Identifier,
    pub params: Vec<Param>,
    pub body: Block,
}

/// A program: its functions, at least one.
#[derive(Drop)]
pub struct Program {
    pub functions: Vec<Function>,
}
