//! Typed expressions.
ghost use Rattle.std.specs.Prelude.{◌≡◌, ◌+◌, ◌≤◌, IfOk, length};
ghost use Rattle.sl_syntax.specs.Tree as s;
ghost use Rattle.sl_syntax.specs.TreeView.{expr_of, exprs_of};
ghost use Rattle.sl_syntax.specs.TypedView as view;
ghost use Rattle.sl_typing.specs.Numbering as spec;
ghost use Rattle.sl_typing.specs.Sites.{site_count, sites_in_all};
ghost use Rattle.sl_typing.specs.TypeOf as types;
ghost use Rattle.sl_numbering.specs.Numbered.{IsNumbered};
ghost use Rattle.sl_numbering.specs.WaysView.{ways_seen};

use crate::calls::{called_algorithm, called_row, own_call, subscripted};
use crate::conversion::handed;
use crate::members::selected;
use crate::names::{function_number, parameters, told, told_behind, variable_use};
use crate::operand::Operand;
use crate::operators::{joined, postfixed, prefixed};
use crate::rows::{letters_of, row_of_algorithm_call, row_of_member_call};
use crate::sites::{inside, site_number, sites_of};
use crate::variables::{literal, number_in, truth};
use crate::ways::Ways;
use sl_base::Scalar;
use sl_base::limits::SITES;
use sl_expr_types::{appends, is_first, type_of};
use sl_syntax::Expr;
use sl_syntax::typed::Expr as TypedExpr;
use sl_typing::Scope;
use std::alloc::{AllocError, Global};

/// An expression that breaks no rule, with its names, rows and sites as numbers, where so many sites stand before it:
/// with its own they are at most 4,096, and the numbers in the scope are small. Its only error is want of memory.
#[cycle(numbering)]
pub fn typed(alloc: Global, scope: &Scope, before: usize, x: &Expr) -> Result<TypedExpr, AllocError>
    requires numbered { IsNumbered scope.now }
    requires sites { before + site_count scope.now (expr_of x.now) ≤ SITES }
    ensures { IfOk result (λ e. view.expr_of e ≡ spec.typed scope.now before (expr_of x.now)) }
{
    match x {
        Expr::Number { value, .. } => Ok(literal(Scalar::Int, *value)),
        Expr::Truth { value, .. } => Ok(truth(*value)),
        Expr::Name(name) => Ok(variable_use(scope, name)),
        Expr::Call {
            function,
            arguments,
        } => {
            let name = function.name.as_slice();
            let ways = Ways::Parameters(parameters(scope, name));
            let values = operands(alloc, scope, before, ways, arguments)?;
            Ok(own_call(function_number(scope, name), function.place, values))
        }
        Expr::LibraryCall {
            function,
            arguments,
        } => {
            let name = function.name.as_slice();
            let given = arguments.as_slice();
            let appending = appends(name, given);
            let row = row_of_algorithm_call(scope, appending, name, given);
            let ways = Ways::Letters(letters_of(row));
            let values = operands(alloc, scope, inside(scope, before, x), ways, given)?;
            let names = told_behind(alloc, None, scope, given)?;
            let site = site_number(scope, before, x);
            called_algorithm(
                alloc,
                row,
                appending,
                function,
                site,
                names.as_slice(),
                values,
            )
        }
        Expr::Parentheses { inner, .. } => typed(alloc, scope, before, inner),
        Expr::Prefix {
            operator,
            place,
            operand,
        } => {
            let value = typed_operand(alloc, scope, before, operand)?;
            prefixed(
                alloc,
                *operator,
                *place,
                &[None, told(scope, operand)],
                value,
            )
        }
        Expr::Binary {
            left,
            operator,
            place,
            right,
        } => {
            let first = typed_operand(alloc, scope, before, left)?;
            let second = typed_operand(alloc, scope, before + sites_of(scope, left), right)?;
            joined(
                alloc,
                *operator,
                *place,
                &[None, told(scope, left), told(scope, right)],
                first,
                second,
            )
        }
        Expr::Postfix {
            operand,
            operator,
            place,
        } => {
            let value = typed_operand(alloc, scope, before, operand)?;
            postfixed(
                alloc,
                *operator,
                *place,
                &[None, told(scope, operand)],
                value,
            )
        }
        Expr::Index {
            object,
            place,
            index,
        } => {
            let container = typed_operand(alloc, scope, before, object)?;
            let value = typed_operand(alloc, scope, inside(scope, before, x), index)?;
            let site = site_number(scope, before, x);
            subscripted(
                alloc,
                *place,
                site,
                &[told(scope, object), told(scope, index)],
                container,
                value,
            )
        }
        Expr::MemberCall {
            object,
            function,
            arguments,
        } => {
            let container = typed_operand(alloc, scope, before, object)?;
            let name = function.name.as_slice();
            let given = arguments.as_slice();
            let row = row_of_member_call(scope, container.value_type, name, given);
            let ways = Ways::Letters(letters_of(row));
            let values = operands(alloc, scope, inside(scope, before, x), ways, given)?;
            let names = told_behind(alloc, told(scope, object), scope, given)?;
            let site = site_number(scope, before, x);
            let number = number_in(&container.value);
            called_row(
                alloc,
                row,
                function.place,
                site,
                number,
                names.as_slice(),
                values,
            )
        }
        Expr::Member {
            object,
            selector,
            place,
            member,
        } => {
            let value = typed(alloc, scope, before, object)?;
            selected(
                alloc,
                *selector,
                *place,
                is_first(member.name.as_slice()),
                &[None, told(scope, object)],
                value,
            )
        }
    }
}

// An expression and its type.
#[cycle(numbering)]
fn typed_operand(
    alloc: Global,
    scope: &Scope,
    before: usize,
    x: &Expr,
) -> Result<Operand, AllocError>
    requires numbered { IsNumbered scope.now }
    requires sites { before + site_count scope.now (expr_of x.now) ≤ SITES }
    ensures value { IfOk result (λ o. view.expr_of o.value ≡ spec.typed scope.now before (expr_of x.now)) }
    ensures own_type { IfOk result (λ o. o.value_type ≡ types.type_of scope.now (expr_of x.now)) }
{
    let value = typed(alloc, scope, before, x)?;
    Ok(Operand {
        value,
        value_type: type_of(scope, x),
    })
}

/// Arguments that break no rule, as they are handed over in these ways, where so many sites stand before them: with
/// their own they are at most 4,096, and the numbers in the scope are small. Its only error is want of memory.
#[cycle(numbering)]
pub fn operands(
    alloc: Global,
    scope: &Scope,
    before: usize,
    ways: Ways<'_>,
    xs: &[Expr],
) -> Result<Vec<TypedExpr>, AllocError>
    requires numbered { IsNumbered scope.now }
    requires sites { before + length (sites_in_all scope.now (exprs_of xs.now)) ≤ SITES }
    ensures { IfOk result (λ v. view.operands_of v.items
        ≡ spec.operands scope.now before (ways_seen ways.entry) (exprs_of xs.now)) }
{
    let mut values = Vec::new(alloc);
    let mut ways = ways;
    let mut count = before;
    for x in xs {
        let operand = typed_operand(alloc, scope, count, x)?;
        values.push(handed(alloc, ways.first(), operand)?)?;
        count += sites_of(scope, x);
        ways = ways.others();
    }
    Ok(values)
}
