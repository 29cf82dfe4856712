//! Assignments.
ghost use Rattle.std.specs.Prelude.{◌≡◌, [], ◌∷◌, IfOk, OnOk, None, option_map};
ghost use Rattle.sl_candidates.specs.Found.{found_of};
ghost use Rattle.sl_syntax.specs.Tree.{assigns};
ghost use Rattle.sl_syntax.specs.TreeView.{expr_of};
ghost use Rattle.sl_syntax.specs.Typed as t;
ghost use Rattle.sl_syntax.specs.TypedView as view;
ghost use Rattle.sl_typing.specs.Flow as flow;
ghost use Rattle.sl_typing.specs.Numbering as numbers;
ghost use Rattle.sl_typing.specs.Sites as sites;
ghost use Rattle.sl_typing.specs.StatementFaults as faults;
ghost use Rattle.sl_typing.specs.StatementNumbering as spec;
ghost use Rattle.sl_typing.specs.TypeOf as types;
ghost use Rattle.sl_typing.specs.Types as kinds;
ghost use Rattle.sl_base.specs.declared.scalar.Scalar.TheVariants as scalars;
ghost use Rattle.sl_syntax.specs.declared.typed.step.Fix.TheVariants as fixes;
ghost use Rattle.sl_number_limits.specs.Fits.{Fits};

use crate::closing::site_here;
use crate::values::operand;
use sl_base::{Place, Scalar, Site};
use sl_candidates::{FoundRow, assignment_row};
use sl_contexts::Known;
use sl_expr_sites::pass_assignment;
use sl_numbering::{
    Operand, call, converted, head, left_of, move_call, number_in, one, operator_head, told,
};
use sl_statement_types::is_assignment_site;
use sl_syntax::typed::{Callee, Effect, Expr as TypedExpr, Fix, Left, Operator};
use sl_syntax::{Arithmetic, Assignment, Expr};
use sl_typing::{ExprType, common};
use std::alloc::{AllocError, Global};

// A side of an assignment, and the number of its name, where it is a plain name.
#[derive(Drop)]
struct Side {
    operand: Operand,
    name: Option<u16>,
}

// A side; then is known what is known behind it.
fn side_of(alloc: Global, known: &mut Known, e: &Expr) -> Result<Side, AllocError>
    requires fits { Fits known.old }
    requires kept { faults.expr_faults known.old (expr_of e.now) ≡ [] }
    ensures value_type { IfOk result (λ x. x.operand.value_type ≡ types.type_of known.old.scope (expr_of e.now)) }
    ensures name { IfOk result (λ x. x.name ≡ numbers.told known.old.scope (expr_of e.now)) }
    ensures typed { IfOk result (λ x. view.expr_of x.operand.value ≡ spec.typed_expr known.old (expr_of e.now)) }
    ensures behind { OnOk result (known.new ≡ sites.behind known.old (expr_of e.now)) }
{
    let name = told(known.scope(), e);
    let operand = operand(alloc, known, e)?;
    Ok(Side { operand, name })
}

// What stands for an expression where there is none.
fn no_expr() -> TypedExpr
    ensures { view.expr_of result ≡ numbers.no_expr }
{
    TypedExpr::Held(Left::Scalar {
        scalar: 0,
        place: Place { line: 0, col: 0 },
    })
}

// `=` between containers, which this row means.
fn assigned_container(
    alloc: Global,
    row: Option<FoundRow>,
    place: Place,
    site: Option<Site>,
    left: Side,
    right: Side,
) -> Result<TypedExpr, AllocError>
    ensures { IfOk result (λ x. view.expr_of x
        ≡ spec.assigned_container (option_map found_of row) place site (numbers.number_in (view.expr_of left.operand.value))
        (left.name ∷ right.name ∷ []) (numbers.one (view.expr_of right.operand.value))) }
{
    match row {
        None => Ok(no_expr()),
        Some(found) => {
            let callee = Callee::Row(found.number);
            let object = number_in(&left.operand.value);
            let names = [left.name, right.name];
            let head = head(alloc, callee, place, site, Some(object), &names)?;
            let operands = one(alloc, right.operand.value)?;
            Ok(call(head, operands))
        }
    }
}

// `=` between numbers.
fn set_number(alloc: Global, left: Side, right: Side) -> Result<Effect, AllocError>
    ensures { IfOk result (λ w. view.effect_of w
        ≡ t.assigns (numbers.left_of (view.expr_of left.operand.value))
        (numbers.converted (kinds.scalar_of left.operand.value_type) right.operand.value_type (view.expr_of right.operand.value))) }
{
    let scalar = left.operand.value_type.scalar();
    let value = converted(alloc, scalar, right.operand)?;
    Ok(Effect::Assign {
        left: left_of(left.operand.value),
        value,
    })
}

// `x = y`: of a container, of an iterator, of a number.
fn set(
    alloc: Global,
    place: Place,
    site: Option<Site>,
    left: Side,
    right: Side,
) -> Result<Effect, AllocError>
    ensures { IfOk result (λ w. view.effect_of w
        ≡ spec.set place site left.operand.value_type right.operand.value_type (left.name ∷ right.name ∷ [])
        (view.expr_of left.operand.value) (view.expr_of right.operand.value)) }
{
    match left.operand.value_type {
        ExprType::Container(_, form) => {
            let row = assignment_row(form);
            let value = assigned_container(alloc, row, place, site, left, right)?;
            Ok(Effect::Evaluate(value))
        }
        ExprType::Iterator(_, _) => Ok(Effect::MoveTo {
            iterator: number_in(&left.operand.value),
            value: right.operand.value,
        }),
        _ => set_number(alloc, left, right),
    }
}

// `+=` and `-=` of an iterator.
fn move_operator(operator: Arithmetic) -> Operator
    ensures { result ≡ spec.move_operator operator }
{
    match operator {
        Arithmetic::Subtract => Operator::SubtractAssign,
        _ => Operator::AddAssign,
    }
}

// An iterator moves by a number.
fn moved(
    alloc: Global,
    operator: Arithmetic,
    place: Place,
    left: Side,
    right: Side,
) -> Result<Effect, AllocError>
    ensures { IfOk result (λ w. view.effect_of w ≡ t.evaluates (t.move fixes.Prefix (numbers.number_in (view.expr_of left.operand.value))
        (numbers.operator_head (spec.move_operator operator) place (None ∷ left.name ∷ right.name ∷ []))
        (numbers.one (numbers.converted scalars.Diff right.operand.value_type (view.expr_of right.operand.value))))) }
{
    let names = [None, left.name, right.name];
    let head = operator_head(alloc, move_operator(operator), place, &names)?;
    let value = converted(alloc, Scalar::Diff, right.operand)?;
    let operands = one(alloc, value)?;
    let iterator = number_in(&left.operand.value);
    Ok(Effect::Evaluate(move_call(Fix::Prefix, iterator, head, operands)))
}

// A number is changed by a number.
fn updated_number(
    alloc: Global,
    operator: Arithmetic,
    place: Place,
    left: Side,
    right: Side,
) -> Result<Effect, AllocError>
    ensures { let type = kinds.common (kinds.scalar_of left.operand.value_type) (kinds.scalar_of right.operand.value_type) in
        IfOk result (λ w. view.effect_of w ≡ t.updates operator type (kinds.scalar_of left.operand.value_type) place
        (numbers.left_of (view.expr_of left.operand.value))
        (numbers.converted type right.operand.value_type (view.expr_of right.operand.value))) }
{
    let left_scalar = left.operand.value_type.scalar();
    let scalar = common(left_scalar, right.operand.value_type.scalar());
    let value = converted(alloc, scalar, right.operand)?;
    Ok(Effect::Update {
        operator,
        scalar,
        left_scalar,
        place,
        left: left_of(left.operand.value),
        value,
    })
}

// `x += y` and its like.
fn updated(
    alloc: Global,
    operator: Arithmetic,
    place: Place,
    left: Side,
    right: Side,
) -> Result<Effect, AllocError>
    ensures { IfOk result (λ w. view.effect_of w
        ≡ spec.updated operator place left.operand.value_type right.operand.value_type (left.name ∷ right.name ∷ [])
        (view.expr_of left.operand.value) (view.expr_of right.operand.value)) }
{
    match left.operand.value_type {
        ExprType::Iterator(_, _) => moved(alloc, operator, place, left, right),
        _ => updated_number(alloc, operator, place, left, right),
    }
}

// An assignment.
fn assigned(
    alloc: Global,
    operator: Assignment,
    place: Place,
    site: Option<Site>,
    left: Side,
    right: Side,
) -> Result<Effect, AllocError>
    ensures { IfOk result (λ w. view.effect_of w
        ≡ spec.assigned operator place site left.operand.value_type right.operand.value_type (left.name ∷ right.name ∷ [])
        (view.expr_of left.operand.value) (view.expr_of right.operand.value)) }
{
    match operator {
        Assignment::Set => set(alloc, place, site, left, right),
        Assignment::Update(by) => updated(alloc, by, place, left, right),
    }
}

// The number of the site that the `=` of an assignment is, if it is one, where this is known behind its left side.
fn equals_site(known: &Known, left: &Expr, operator: Assignment, place: Place) -> Option<Site>
    requires fits { Fits known.now }
    requires kept { faults.site_faults known.now (sites.is_assignment_site known.now.scope (expr_of left.now) operator) place ≡ [] }
    ensures { result ≡ spec.assignment_number known.now (expr_of left.now) operator }
{
    site_here(known, is_assignment_site(known.scope(), left, operator))
}

/// An assignment; then is known what is known behind it.
pub fn assignment(
    alloc: Global,
    known: &mut Known,
    left: &Expr,
    operator: Assignment,
    place: Place,
    right: &Expr,
) -> Result<Effect, AllocError>
    requires fits { Fits known.old }
    requires kept { faults.effect_faults known.old (assigns (expr_of left.now) operator place (expr_of right.now)) ≡ [] }
    ensures typed { IfOk result (λ w. view.effect_of w
        ≡ spec.typed_effect known.old (assigns (expr_of left.now) operator place (expr_of right.now))) }
    ensures behind { OnOk result (known.new ≡ flow.behind_effect known.old (assigns (expr_of left.now) operator place (expr_of right.now))) }
{
    let to = side_of(alloc, known, left)?;
    let site = equals_site(known, left, operator, place);
    pass_assignment(known, left, operator, place)?;
    let from = side_of(alloc, known, right)?;
    let done = assigned(alloc, operator, place, site, to, from)?;
    Ok(done)
}
