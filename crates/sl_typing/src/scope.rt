use crate::expr_type::ExprType;
use sl_base::{Items, Name};
use sl_syntax::typed::ParameterKind;

/// A variable in scope.
#[derive(Drop)]
pub struct NamedVariable {
    /// Its name; the two hidden iterators of a range-for have none.
    pub name: Option<Name>,
    /// The number of its name among the names of the text, from 0.
    pub label: usize,
    /// Its number among the scalars, the containers or the iterators in scope, from 0; references count as iterators.
    pub number: usize,
    pub variable_type: ExprType,
}

/// What a call of a function of the text needs to know of it.
#[derive(Drop)]
pub struct FunctionHead {
    /// Its place among the functions of the text, from 0.
    pub number: usize,
    pub name: Name,
    pub parameters: Items<ParameterKind>,
    /// A function that gives nothing has none.
    pub result: Option<ParameterKind>,
}

/// What names mean at a place of a text.
#[derive(Drop)]
pub struct Scope {
    /// The variables in scope, in the order of their declarations.
    pub variables: Items<NamedVariable>,
    /// How many of them stand around the innermost scope.
    pub outer: usize,
    /// The functions so far, in their order, the present one too.
    pub functions: Items<FunctionHead>,
    /// What the present function gives.
    pub result: Option<ParameterKind>,
    /// Whether the place is in a loop.
    pub in_loop: bool,
}
