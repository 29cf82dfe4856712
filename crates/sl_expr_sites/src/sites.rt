//! The sites of expressions, of the `=` of assignments and of closing braces, behind those that are known.
ghost use Rattle.std.specs.Prelude.{◌≡◌, OnOk};
ghost use Rattle.sl_syntax.specs.TreeView.{expr_of, exprs_of, items_of};
ghost use Rattle.sl_typing.specs.Contexts.{with_sites};
ghost use Rattle.sl_typing.specs.Sites.{own_site, behind, behind_all, assignment_site, brace_site};

use sl_base::Place;
use sl_contexts::Known;
use sl_expr_types::{is_site, place_of};
use sl_statement_types::{declares_container, is_assignment_site};
use sl_syntax::{Assignment, Expr, Item};
use std::alloc::AllocError;

// The node itself, where it is a site.
#[tactic(auto, unfolding(crate::specs::Means::own_site))]
fn pass_own(known: &mut Known, e: &Expr) -> Result<(), AllocError>
    ensures { OnOk result (known.new ≡ with_sites (own_site known.old.scope (expr_of e.now)) known.old) }
{
    if is_site(known.scope(), e) {
        known.with_site(place_of(e))?;
    }
    Ok(())
}

/// Counts the sites of an expression, in their order. Where memory runs out, some of them are counted.
#[cycle(expression)]
pub fn pass(known: &mut Known, e: &Expr) -> Result<(), AllocError>
    ensures { OnOk result (known.new ≡ behind known.old (expr_of e.now)) }
{
    match e {
        Expr::Number { .. } => Ok(()),
        Expr::Truth { .. } => Ok(()),
        Expr::Name(_) => Ok(()),
        Expr::Call { arguments, .. } => pass_all(known, arguments),
        Expr::LibraryCall { arguments, .. } => {
            pass_own(known, e)?;
            pass_all(known, arguments)
        }
        Expr::Parentheses { inner, .. } => pass(known, inner),
        Expr::Prefix { operand, .. } => pass(known, operand),
        Expr::Binary { left, right, .. } => {
            pass(known, left)?;
            pass(known, right)
        }
        Expr::Postfix { operand, .. } => pass(known, operand),
        Expr::Index { object, index, .. } => {
            pass(known, object)?;
            pass_own(known, e)?;
            pass(known, index)
        }
        Expr::MemberCall {
            object,
            arguments,
            ..
        } => {
            pass(known, object)?;
            pass_own(known, e)?;
            pass_all(known, arguments)
        }
        Expr::Member { object, .. } => pass(known, object),
    }
}

/// Counts those of expressions. Where memory runs out, some of them are counted.
#[cycle(expression)]
pub fn pass_all(known: &mut Known, xs: &[Expr]) -> Result<(), AllocError>
    ensures { OnOk result (known.new ≡ behind_all known.old (exprs_of xs.now)) }
{
    for x in xs {
        pass(known, x)?;
    }
    Ok(())
}

/// Counts the `=` of an assignment, where it is a site. Where memory runs out, nothing changes.
pub fn pass_assignment(
    known: &mut Known,
    left: &Expr,
    operator: Assignment,
    place: Place,
) -> Result<(), AllocError>
    ensures { OnOk result (known.new ≡ with_sites (assignment_site known.old.scope (expr_of left.now) operator place) known.old) }
{
    if is_assignment_site(known.scope(), left, operator) {
        known.with_site(place)?;
    }
    Ok(())
}

/// Counts the closing brace of a block, where it is a site. Where memory runs out, nothing changes.
pub fn pass_brace(known: &mut Known, items: &[Item], close: Place) -> Result<(), AllocError>
    ensures { OnOk result (known.new ≡ with_sites (brace_site (items_of items.now) close) known.old) }
{
    if declares_container(items) {
        known.with_site(close)?;
    }
    Ok(())
}
