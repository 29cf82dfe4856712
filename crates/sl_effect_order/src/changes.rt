//! What changes its container.
ghost use Rattle.std.specs.Prelude.{◌≡◌};
ghost use Rattle.sl_typing.specs.Order as spec;

use sl_candidates::{form_member_changes, form_subscript_changes};
use sl_syntax::Access;
use sl_syntax::typed::ParameterKind;
use sl_typing::ExprType;

/// Whether `[ ]` on an object of this type puts in a key that isn't there. It takes no memory.
pub fn subscript_changes(object: ExprType) -> bool
    ensures { result ≡ spec.subscript_changes object }
{
    match object {
        ExprType::Container(_, form) => form_subscript_changes(form),
        _ => false,
    }
}

/// Whether a member call of a name and so many arguments changes its object, which has this type. It takes no memory.
pub fn member_changes(object: ExprType, name: &[u8], count: usize) -> bool
    ensures { result ≡ spec.member_changes object name.now count }
{
    match object {
        ExprType::Container(_, form) => form_member_changes(form, name, count),
        _ => false,
    }
}

// Whether a parameter of this kind is a reference that isn't const.
pub fn changes_argument(kind: ParameterKind) -> bool
    ensures { result ≡ spec.changes_argument kind }
{
    match kind {
        ParameterKind::Reference(_) => true,
        ParameterKind::Container {
            access: Access::Whole,
            ..
        } => true,
        _ => false,
    }
}
