//! Declarations.
ghost use Rattle.std.specs.Prelude.{◌≡◌, [], Some, IfOk, OnOk, option_map};
ghost use Rattle.sl_syntax.specs.Tree as tree;
ghost use Rattle.sl_syntax.specs.TreeView.{expr_of, initializer_of, declaration_of, first_of};
ghost use Rattle.sl_syntax.specs.Typed as t;
ghost use Rattle.sl_syntax.specs.TypedView as view;
ghost use Rattle.sl_typing.specs.Contexts as contexts;
ghost use Rattle.sl_typing.specs.Flow as flow;
ghost use Rattle.sl_typing.specs.Numbering as numbers;
ghost use Rattle.sl_typing.specs.Sites as sites;
ghost use Rattle.sl_typing.specs.StatementFaults as faults;
ghost use Rattle.sl_typing.specs.StatementNumbering as spec;
ghost use Rattle.sl_typing.specs.Ranges as ranges;
ghost use Rattle.sl_typing.specs.TypeOf as types;
ghost use Rattle.sl_typing.specs.Types as kinds;
ghost use Rattle.sl_number_limits.specs.Fits.{Fits};

use crate::containers::made;
use crate::effects::effect;
use crate::values::operand;
use sl_base::{Place, Scalar};
use sl_contexts::Known;
use sl_numbering::{Operand, converted};
use sl_statement_types::reference_type;
use sl_syntax::typed::{
    Declaration as TypedDeclaration, Expr as TypedExpr, First as TypedFirst, Left,
};
use sl_syntax::{
    Access, ContainerType, Declaration, Expr, First, Identifier, Initializer, ReferenceHead,
};
use sl_typing::ExprType;
use std::alloc::{AllocError, Global};

// A scalar with its value, which is declared.
fn set_scalar(
    alloc: Global,
    known: &mut Known,
    scalar: Scalar,
    name: &Identifier,
    e: &Expr,
) -> Result<TypedDeclaration, AllocError>
    requires fits { Fits known.old }
    requires kept { faults.expr_faults known.old (expr_of e.now) ≡ [] }
    ensures typed { IfOk result (λ d. view.declaration_of d
        ≡ t.set_scalar scalar (numbers.converted scalar (types.type_of known.old.scope (expr_of e.now)) (spec.typed_expr known.old (expr_of e.now)))) }
    ensures behind { OnOk result (known.new ≡ contexts.declare name.now (ExprType.Scalar scalar) (sites.behind known.old (expr_of e.now))) }
{
    let operand = operand(alloc, known, e)?;
    let value = converted(alloc, scalar, operand)?;
    known.declare(name, ExprType::Scalar(scalar))?;
    Ok(TypedDeclaration::SetScalar { scalar, value })
}

// A scalar, which may have a value and is declared.
fn scalar_declaration(
    alloc: Global,
    known: &mut Known,
    scalar: Scalar,
    name: &Identifier,
    value: &Option<Expr>,
) -> Result<TypedDeclaration, AllocError>
    requires fits { Fits known.old }
    requires kept { faults.value_faults known.old (option_map expr_of value.now) ≡ [] }
    ensures typed { (at : Place) → IfOk result (λ d. view.declaration_of d
        ≡ spec.typed_declaration known.old (tree.declares_scalar at scalar name.now (option_map expr_of value.now))) }
    ensures behind { OnOk result (known.new
        ≡ contexts.declare name.now (ExprType.Scalar scalar) (flow.behind_value known.old (option_map expr_of value.now))) }
{
    match value {
        None => {
            known.declare(name, ExprType::Scalar(scalar))?;
            Ok(TypedDeclaration::UnsetScalar(scalar))
        }
        Some(e) => set_scalar(alloc, known, scalar, name, e),
    }
}

// What a declaration without a written type declares: a number or an iterator.
fn declared_auto(operand: Operand) -> TypedDeclaration
    ensures { view.declaration_of result ≡ spec.declared_auto operand.value_type (view.expr_of operand.value) }
{
    if operand.value_type.is_iterator() {
        TypedDeclaration::SetIterator(operand.value)
    } else {
        TypedDeclaration::SetScalar {
            scalar: operand.value_type.scalar(),
            value: operand.value,
        }
    }
}

// A variable without a written type, which is declared.
fn auto_declaration(
    alloc: Global,
    known: &mut Known,
    name: &Identifier,
    e: &Expr,
) -> Result<TypedDeclaration, AllocError>
    requires fits { Fits known.old }
    requires kept { faults.expr_faults known.old (expr_of e.now) ≡ [] }
    ensures typed { IfOk result (λ d. view.declaration_of d
        ≡ spec.declared_auto (types.type_of known.old.scope (expr_of e.now)) (spec.typed_expr known.old (expr_of e.now))) }
    ensures behind { OnOk result (known.new
        ≡ contexts.declare name.now (kinds.value_type (types.type_of known.old.scope (expr_of e.now))) (sites.behind known.old (expr_of e.now))) }
{
    let operand = operand(alloc, known, e)?;
    known.declare(name, operand.value_type.value())?;
    Ok(declared_auto(operand))
}

// A reference to the element that a left side is.
fn bound_left(left: Left) -> TypedDeclaration
    ensures { view.declaration_of result ≡ spec.bound (t.held (view.left_of left)) }
{
    match left {
        Left::Element { head, operands } => TypedDeclaration::BindReference { head, operands },
        other => TypedDeclaration::SetIterator(TypedExpr::Held(other)),
    }
}

// A reference to the element that an expression is.
fn bound(value: TypedExpr) -> TypedDeclaration
    ensures { view.declaration_of result ≡ spec.bound (view.expr_of value) }
{
    match value {
        TypedExpr::Held(left) => bound_left(left),
        other => TypedDeclaration::SetIterator(other),
    }
}

// A reference, which is declared.
fn reference_declaration(
    alloc: Global,
    known: &mut Known,
    head: ReferenceHead,
    name: &Identifier,
    e: &Expr,
) -> Result<TypedDeclaration, AllocError>
    requires fits { Fits known.old }
    requires kept { faults.expr_faults known.old (expr_of e.now) ≡ [] }
    ensures typed { IfOk result (λ d. view.declaration_of d ≡ spec.bound (spec.typed_expr known.old (expr_of e.now))) }
    ensures behind { OnOk result (known.new
        ≡ contexts.declare name.now (ranges.reference_type head (types.type_of known.old.scope (expr_of e.now)))
        (sites.behind known.old (expr_of e.now))) }
{
    let operand = operand(alloc, known, e)?;
    known.declare(name, reference_type(head, operand.value_type))?;
    Ok(bound(operand.value))
}

// A container, which is declared.
fn container_declaration(
    alloc: Global,
    known: &mut Known,
    container: ContainerType,
    name: &Identifier,
    initializer: &Initializer,
) -> Result<TypedDeclaration, AllocError>
    requires fits { Fits known.old }
    requires kept { faults.initializer_faults known.old (initializer_of initializer.now) ≡ [] }
    ensures typed { IfOk result (λ d. view.declaration_of d
        ≡ spec.typed_declaration known.old (tree.declares_container container name.now (initializer_of initializer.now))) }
    ensures behind { OnOk result (known.new
        ≡ flow.behind_declaration known.old (tree.declares_container container name.now (initializer_of initializer.now))) }
{
    let declared = made(alloc, known, container, initializer)?;
    known.declare(name, ExprType::Container(Access::Whole, container.form))?;
    Ok(declared)
}

/// A declaration; then is known what is known behind it.
pub fn declaration(
    alloc: Global,
    known: &mut Known,
    d: &Declaration,
) -> Result<TypedDeclaration, AllocError>
    requires fits { Fits known.old }
    requires kept { faults.declaration_faults known.old (declaration_of d.now) ≡ [] }
    ensures typed { IfOk result (λ x. view.declaration_of x ≡ spec.typed_declaration known.old (declaration_of d.now)) }
    ensures behind { OnOk result (known.new ≡ flow.behind_declaration known.old (declaration_of d.now)) }
{
    match d {
        Declaration::Scalar {
            scalar,
            name,
            value,
            ..
        } => scalar_declaration(alloc, known, *scalar, name, value),
        Declaration::Auto { name, value, .. } => auto_declaration(alloc, known, name, value),
        Declaration::Reference { head, name, value } => {
            reference_declaration(alloc, known, *head, name, value)
        }
        Declaration::Container {
            container,
            name,
            initializer,
        } => container_declaration(alloc, known, *container, name, initializer),
    }
}

// The first part of a `for`; then is known what is known behind it.
fn first_of_for(alloc: Global, known: &mut Known, first: &First) -> Result<TypedFirst, AllocError>
    requires fits { Fits known.old }
    requires kept { faults.first_faults known.old (Some (first_of first.now)) ≡ [] }
    ensures typed { IfOk result (λ x. view.first_of x ≡ spec.typed_first known.old (Some (first_of first.now))) }
    ensures behind { OnOk result (known.new ≡ flow.behind_first known.old (Some (first_of first.now))) }
{
    match first {
        First::Scalar {
            scalar,
            name,
            value,
            ..
        } => {
            let declared = set_scalar(alloc, known, *scalar, name, value)?;
            Ok(TypedFirst::Declaration(declared))
        }
        First::Auto { name, value, .. } => {
            let declared = auto_declaration(alloc, known, name, value)?;
            Ok(TypedFirst::Declaration(declared))
        }
        First::Effect(w) => {
            let done = effect(alloc, known, w)?;
            Ok(TypedFirst::Effect(done))
        }
    }
}

/// The first part of a `for`, which may be missing; then is known what is known behind it.
pub fn first_part(
    alloc: Global,
    known: &mut Known,
    first: &Option<First>,
) -> Result<TypedFirst, AllocError>
    requires fits { Fits known.old }
    requires kept { faults.first_faults known.old (option_map first_of first.now) ≡ [] }
    ensures typed { IfOk result (λ x. view.first_of x ≡ spec.typed_first known.old (option_map first_of first.now)) }
    ensures behind { OnOk result (known.new ≡ flow.behind_first known.old (option_map first_of first.now)) }
{
    match first {
        None => Ok(TypedFirst::Absent),
        Some(first) => first_of_for(alloc, known, first),
    }
}
