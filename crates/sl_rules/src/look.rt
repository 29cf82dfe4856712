use sl_expr_types::Types;
use sl_typing::{ExprType, Fault};

/// What a look at an expression finds.
#[derive(Clone, Copy)]
pub struct Look {
    /// The first rule that it breaks.
    pub fault: Option<Fault>,
    pub expr_type: ExprType,
    /// How many sites it has, or the least number that is too many.
    pub sites: usize,
}

/// What a look at the arguments of a call finds.
#[derive(Drop)]
pub struct LookAll {
    /// The first rule that they break.
    pub fault: Option<Fault>,
    /// Their types, if they are no more than a call of the library may have.
    pub types: Option<Types>,
    /// How many sites they have, or the least number that is too many.
    pub sites: usize,
}
