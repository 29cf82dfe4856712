use crate::typed::{Block, ParameterKind, Variable};
use sl_base::{Items, Name, Place};

/// A function: its name, its parameters in their order, what it gives back, if it gives anything, all variables that it
/// declares, parameters first and in source order, its body, and the place of its closing brace.
#[derive(Drop)]
pub struct Function {
    pub name: Name,
    pub parameters: Items<ParameterKind>,
    pub result: Option<ParameterKind>,
    pub variables: Items<Variable>,
    pub body: Block,
    pub close: Place,
}
