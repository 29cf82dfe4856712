//! How the parts of an expression stand.
ghost use Rattle.std.specs.Prelude.{◌≡◌, ◌==◌, if◌then◌else◌};
ghost use Rattle.sl_syntax.specs.TreeView.{exprs_of};
ghost use Rattle.sl_typing.specs.Faults as spec;
ghost use Rattle.sl_typing.specs.Rules as rule;
ghost use Rattle.sl_typing.specs.WrongType as wrong;

use sl_candidates::has_output;
use sl_expr_types::is_part_name;
use sl_syntax::{Expr, Selector};
use sl_typing::Standing;

/// Whether it stands directly before `.first` or `.second`.
pub fn is_before_part(standing: Standing) -> bool
    ensures { result ≡ wrong.is_before_part standing }
{
    matches!(standing, Standing::Pair)
}

/// Whether it stands directly as an output.
pub fn is_as_output(standing: Standing) -> bool
    ensures { result ≡ rule.is_as_output standing }
{
    matches!(standing, Standing::Output)
}

/// How an expression stands before `.x` or `->x`.
pub fn part_standing(selector: Selector, name: &[u8]) -> Standing
    ensures { result ≡ spec.part_standing selector name.now }
{
    match selector {
        Selector::Dot => standing_if(is_part_name(name), Standing::Pair),
        Selector::Arrow => Standing::Plain,
    }
}

// It stands so, if the test says so, and else plainly.
fn standing_if(test: bool, standing: Standing) -> Standing
    ensures { result ≡ (if test then standing else Standing.Plain) }
{
    if test { standing } else { Standing::Plain }
}

/// How the last argument of an algorithm stands.
#[tactic(auto, using(crate::proofs::ArgumentLaws::size_exprs_of))]
pub fn last_standing(name: &[u8], arguments: &[Expr]) -> Standing
    ensures { result ≡ spec.last_standing name.now (exprs_of arguments.now) }
{
    standing_if(has_output(name, arguments.len()), Standing::Output)
}

/// How an argument stands that so many others follow.
pub fn standing_before(following: usize, last: Standing) -> Standing
    ensures { result ≡ (if following == 0 then last else Standing.Plain) }
{
    standing_if(following == 0, last)
}
