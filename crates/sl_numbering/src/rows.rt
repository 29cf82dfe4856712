//! The rows of calls.
ghost use Rattle.std.specs.Prelude.{◌≡◌, option_map};
ghost use Rattle.sl_syntax.specs.TreeView.{exprs_of};
ghost use Rattle.sl_typing.specs.Candidates as candidates;
ghost use Rattle.sl_typing.specs.Numbering as spec;
ghost use Rattle.sl_typing.specs.TypeOf.{types_of};
ghost use Rattle.sl_candidates.specs.Found.{found_of};

use sl_candidates::FoundRow;
use sl_expr_types::{row_of_algorithm, row_of_member, types_of};
use sl_specs::Letter;
use sl_syntax::Expr;
use sl_typing::{ExprType, Scope};

/// The row of a member call on an object of a type, if there is one. It takes no memory.
pub fn row_of_member_call(
    scope: &Scope,
    object: ExprType,
    name: &[u8],
    arguments: &[Expr],
) -> Option<FoundRow>
    ensures { option_map found_of result
        ≡ spec.row_of_member object name.now (types_of scope.now (exprs_of arguments.now)) }
{
    row_of_member(object, name, &types_of(scope, arguments))
}

/// The row of a call of an algorithm, which appends or doesn't, if there is one. It takes no memory.
pub fn row_of_algorithm_call(
    scope: &Scope,
    appends: bool,
    name: &[u8],
    arguments: &[Expr],
) -> Option<FoundRow>
    ensures { option_map found_of result
        ≡ candidates.algorithm_row appends name.now (types_of scope.now (exprs_of arguments.now)) }
{
    row_of_algorithm(appends, name, &types_of(scope, arguments))
}

/// The letters of a row, if there is one. It takes no memory.
pub fn letters_of(row: Option<FoundRow>) -> &'static [Letter]
    ensures { result.now ≡ spec.letters_of (option_map found_of row) }
{
    match row {
        None => &[],
        Some(found) => found.entry.signature.letters,
    }
}
