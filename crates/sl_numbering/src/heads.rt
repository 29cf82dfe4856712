//! Heads of calls of the library.
ghost use Rattle.std.specs.Prelude.{◌≡◌, IfOk};
ghost use Rattle.sl_syntax.specs.TypedView as view;
ghost use Rattle.sl_typing.specs.Numbering as spec;

use sl_base::{Items, Place, Site};
use sl_syntax::typed::{Callee, Expr, Head, Operator};
use std::alloc::{AllocError, Global};

/// Names up to the last that is told. It takes no memory.
pub fn trimmed(names: &[Option<u16>]) -> &[Option<u16>]
    ensures { result.now ≡ spec.trimmed names.now }
{
    let mut end = 0;
    for (i, name) in names.iter().enumerate() {
        if name.is_some() {
            end = i + 1;
        }
    }
    &names[..end]
}

/// The head of a call, with its names up to the last that is told.
pub fn head(
    alloc: Global,
    callee: Callee,
    place: Place,
    site: Option<Site>,
    object: Option<u8>,
    names: &[Option<u16>],
) -> Result<Head, AllocError>
    ensures { IfOk result (λ h. h ≡ spec.head callee place site object names.now) }
{
    let names = Items::from_slice(alloc, trimmed(names))?;
    Ok(Head {
        callee,
        place,
        site,
        object,
        names,
    })
}

/// The head of an operator on iterators.
pub fn operator_head(
    alloc: Global,
    operator: Operator,
    place: Place,
    names: &[Option<u16>],
) -> Result<Head, AllocError>
    ensures { IfOk result (λ h. h ≡ spec.operator_head operator place names.now) }
{
    head(alloc, Callee::Operator(operator), place, None, None, names)
}

/// One operand.
pub fn one(alloc: Global, value: Expr) -> Result<Vec<Expr>, AllocError>
    ensures { IfOk result (λ v. view.operands_of v.items ≡ spec.one (view.expr_of value)) }
{
    let mut operands = Vec::new(alloc);
    operands.push(value)?;
    Ok(operands)
}

/// Two operands.
pub fn two(alloc: Global, first: Expr, second: Expr) -> Result<Vec<Expr>, AllocError>
    ensures { IfOk result (λ v. view.operands_of v.items ≡ spec.two (view.expr_of first) (view.expr_of second)) }
{
    let mut operands = Vec::new(alloc);
    operands.push(first)?;
    operands.push(second)?;
    Ok(operands)
}
