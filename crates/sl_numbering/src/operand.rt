use sl_syntax::typed::Expr;
use sl_typing::ExprType;

/// An operand and its type before any conversion.
#[derive(Drop)]
pub struct Operand {
    pub value: Expr,
    pub value_type: ExprType,
}
