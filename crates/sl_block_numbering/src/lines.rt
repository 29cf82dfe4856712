//! Statements that hold no others.
ghost use Rattle.std.specs.Prelude.{◌≡◌, [], IfOk, OnOk, option_map};
ghost use Rattle.sl_syntax.specs.Tree as tree;
ghost use Rattle.sl_syntax.specs.TreeView.{declaration_of, effect_of, expr_of};
ghost use Rattle.sl_syntax.specs.TypedView as view;
ghost use Rattle.sl_typing.specs.Flow as flow;
ghost use Rattle.sl_typing.specs.StatementFaults as faults;
ghost use Rattle.sl_typing.specs.StatementNumbering as spec;
ghost use Rattle.sl_number_limits.specs.Fits.{Fits};

use sl_base::Place;
use sl_contexts::Known;
use sl_numbering::{Operand, converted};
use sl_statement_numbering::{declaration, effect, operand};
use sl_syntax::typed::{Expr as TypedExpr, ParameterKind, Stmt};
use sl_syntax::{Declaration, Effect, Expr};
use std::alloc::{AllocError, Global};

/// A declaration among statements; then is known what is known behind it.
#[tactic(auto, unfolding(crate::specs::Means::Statements::typed_item, crate::specs::Means::Statements::after_item))]
pub fn declared(alloc: Global, known: &mut Known, d: &Declaration) -> Result<Stmt, AllocError>
    requires fits { Fits known.old }
    requires kept { faults.item_faults known.old (tree.declares (declaration_of d.now)) ≡ [] }
    ensures typed { IfOk result (λ a. view.stmt_of a ≡ spec.typed_item known.old (tree.declares (declaration_of d.now))) }
    ensures behind { OnOk result (known.new ≡ flow.after_item known.old (tree.declares (declaration_of d.now))) }
{
    known.started()?;
    let declared = declaration(alloc, known, d)?;
    Ok(Stmt::Declaration(declared))
}

/// What is done for its effect, as a statement; then is known what is known behind it.
#[tactic(auto, unfolding(crate::specs::Means::Statements::typed_stmt, crate::specs::Means::Statements::after))]
pub fn done(alloc: Global, known: &mut Known, place: Place, w: &Effect) -> Result<Stmt, AllocError>
    requires fits { Fits known.old }
    requires kept { faults.stmt_faults known.old (tree.does place (effect_of w.now)) ≡ [] }
    ensures typed { IfOk result (λ a. view.stmt_of a ≡ spec.typed_stmt known.old (tree.does place (effect_of w.now))) }
    ensures behind { OnOk result (known.new ≡ flow.after known.old (tree.does place (effect_of w.now))) }
{
    known.started()?;
    let done = effect(alloc, known, w)?;
    Ok(Stmt::Effect(done))
}

// A value that is given back, as what the function gives.
fn returned(
    alloc: Global,
    kind: Option<ParameterKind>,
    value: Operand,
) -> Result<TypedExpr, AllocError>
    ensures { IfOk result (λ e. view.expr_of e ≡ spec.returned kind value.value_type (view.expr_of value.value)) }
{
    match kind {
        Some(ParameterKind::Value(scalar)) => converted(alloc, scalar, value),
        _ => Ok(value.value),
    }
}

// The value of a `return`, which may be missing, where the statement has begun.
fn value_of(
    alloc: Global,
    known: &mut Known,
    value: &Option<Expr>,
) -> Result<Option<TypedExpr>, AllocError>
    requires fits { Fits known.old }
    requires kept { faults.value_faults known.old (option_map expr_of value.now) ≡ [] }
    ensures typed { IfOk result (λ x. option_map view.expr_of x ≡ spec.typed_value known.old (option_map expr_of value.now)) }
    ensures behind { OnOk result (known.new ≡ flow.behind_value known.old (option_map expr_of value.now)) }
{
    match value {
        None => Ok(None),
        Some(e) => {
            let kind = known.scope().result;
            let given = operand(alloc, known, e)?;
            let given = returned(alloc, kind, given)?;
            Ok(Some(given))
        }
    }
}

/// A `return`; then is known what is known behind it.
#[tactic(auto, unfolding(crate::specs::Means::Statements::typed_stmt, crate::specs::Means::Statements::after))]
pub fn given_back(
    alloc: Global,
    known: &mut Known,
    place: Place,
    value: &Option<Expr>,
) -> Result<Stmt, AllocError>
    requires fits { Fits known.old }
    requires kept { faults.stmt_faults known.old (tree.gives_back place (option_map expr_of value.now)) ≡ [] }
    ensures typed { IfOk result (λ a. view.stmt_of a ≡ spec.typed_stmt known.old (tree.gives_back place (option_map expr_of value.now))) }
    ensures behind { OnOk result (known.new ≡ flow.after known.old (tree.gives_back place (option_map expr_of value.now))) }
{
    known.started()?;
    let value = value_of(alloc, known, value)?;
    Ok(Stmt::Return(value))
}
