//! Expressions that stand as parts of statements and declarations.
ghost use Rattle.std.specs.Prelude.{◌≡◌, length, option_map, option_copied};
ghost use Rattle.sl_syntax.specs.TreeView.{expr_of, exprs_of};
ghost use Rattle.sl_typing.specs.declared.standing.Standing.TheVariants as standing;
ghost use Rattle.sl_typing.specs.Faults.{faults_of_all};
ghost use Rattle.sl_typing.specs.Flow.{behind_value};
ghost use Rattle.sl_typing.specs.Sites.{behind, behind_all};
ghost use Rattle.sl_typing.specs.StatementFaults.{expr_faults, value_faults};
ghost use Rattle.sl_first_fault.specs.Means.Steps.{Answers};

use crate::faults::stop_at;
use crate::stop::Stop;
use sl_contexts::Known;
use sl_expr_sites::{pass, pass_all};
use sl_rules::{look_at, look_at_all};
use sl_syntax::Expr;
use sl_typing::Standing;

/// An expression.
pub fn expression(known: &mut Known, e: &Expr) -> Result<(), Stop>
    ensures { Answers result (expr_faults known.old (expr_of e.now)) known.new (behind known.old (expr_of e.now)) }
{
    let look = look_at(known.scope(), known.sites(), Standing::Plain, e);
    stop_at(look.fault)?;
    pass(known, e)?;
    Ok(())
}

/// Arguments in parentheses.
pub fn arguments(known: &mut Known, xs: &[Expr]) -> Result<(), Stop>
    ensures { Answers result
        (faults_of_all known.old.scope (length known.old.sites) standing.Plain (exprs_of xs.now))
        known.new (behind_all known.old (exprs_of xs.now)) }
{
    let looks = look_at_all(known.scope(), known.sites(), Standing::Plain, xs);
    stop_at(looks.fault)?;
    pass_all(known, xs)?;
    Ok(())
}

/// A value, which may be missing.
pub fn value(known: &mut Known, value: Option<&Expr>) -> Result<(), Stop>
    ensures { Answers result
        (value_faults known.old (option_map expr_of (option_copied value.entry)))
        known.new (behind_value known.old (option_map expr_of (option_copied value.entry))) }
{
    match value {
        None => Ok(()),
        Some(e) => expression(known, e),
    }
}
