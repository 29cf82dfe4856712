//! The types of calls of the library, from the types of their parts.
ghost use Rattle.std.specs.Prelude.{◌≡◌, option_map};
ghost use Rattle.sl_expr_types.specs.Few.{listed};
ghost use Rattle.sl_expr_types.specs.Means.Calls as means;
ghost use Rattle.sl_candidates.specs.Found.{found_of};
ghost use Rattle.sl_typing.specs.TypeOf as spec;

use crate::gives::{algorithm_gives, result_type};
use crate::types::{Types, slice_of};
use sl_base::Form;
use sl_candidates::{FoundRow, algorithm_row, member_row};
use sl_typing::{ExprType, is_const};

// The type of what a row gives, if there is one.
fn member_gives(row: Option<FoundRow>, is_const: bool, form: Form, types: &[ExprType]) -> ExprType
    ensures { result ≡ means.member_gives (option_map found_of row) is_const form types.now }
{
    match row {
        None => ExprType::Wrong,
        Some(found) => result_type(found.entry.signature.gives, is_const, form, types),
    }
}

/// The type of a member call on an object of this type, with arguments of these types. It takes no memory.
pub fn member_call_type(object: ExprType, name: &[u8], types: &Option<Types>) -> ExprType
    ensures { result ≡ spec.member_type object name.now (listed types.now) }
{
    match object {
        ExprType::Container(access, form) => {
            let types = slice_of(types);
            member_gives(member_row(form, name, types), is_const(access), form, types)
        }
        _ => ExprType::Wrong,
    }
}

// The type of what the row of an algorithm gives, if there is one.
fn row_gives(appends: bool, row: Option<FoundRow>, types: &[ExprType]) -> ExprType
    ensures { result ≡ means.row_gives appends (option_map found_of row) types.now }
{
    match row {
        None => ExprType::Wrong,
        Some(found) => algorithm_gives(appends, found.entry.signature.gives, types),
    }
}

/// The type of a call of an algorithm that appends, or doesn't, with arguments of these types. It takes no memory.
pub fn algorithm_call_type(appends: bool, name: &[u8], types: &Option<Types>) -> ExprType
    ensures { result ≡ spec.algorithm_type appends name.now (listed types.now) }
{
    let types = slice_of(types);
    row_gives(appends, algorithm_row(appends, name, types), types)
}
