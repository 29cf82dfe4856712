//! The rows that calls mean, from the types of their parts.
ghost use Rattle.std.specs.Prelude.{◌≡◌, option_map};
ghost use Rattle.sl_expr_types.specs.Few.{listed};
ghost use Rattle.sl_candidates.specs.Found.{found_of};
ghost use Rattle.sl_typing.specs.Candidates.{algorithm_row as meant};
ghost use Rattle.sl_typing.specs.Numbering as spec;

use crate::types::{Types, slice_of};
use sl_candidates::{FoundRow, algorithm_row, member_row, subscript_row};
use sl_typing::ExprType;

/// The row of a member call on an object of this type, with arguments of these types, if there is one. It takes no memory.
pub fn row_of_member(object: ExprType, name: &[u8], types: &Option<Types>) -> Option<FoundRow>
    ensures { option_map found_of result ≡ spec.row_of_member object name.now (listed types.now) }
{
    match object {
        ExprType::Container(_, form) => member_row(form, name, slice_of(types)),
        _ => None,
    }
}

/// The row of `[ ]` on an object of this type, if there is one. It takes no memory.
pub fn row_of_subscript(object: ExprType) -> Option<FoundRow>
    ensures { option_map found_of result ≡ spec.row_of_subscript object }
{
    match object {
        ExprType::Container(_, form) => subscript_row(form),
        _ => None,
    }
}

/// The row of a call of an algorithm that appends, or doesn't, with arguments of these types, if there is one. It takes no memory.
pub fn row_of_algorithm(appends: bool, name: &[u8], types: &Option<Types>) -> Option<FoundRow>
    ensures { option_map found_of result ≡ meant appends name.now (listed types.now) }
{
    algorithm_row(appends, name, slice_of(types))
}
