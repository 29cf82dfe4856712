//! Numbers and names.
ghost use Rattle.std.specs.Prelude.{◌≡◌, ℕ, Bool};
ghost use Rattle.sl_base.specs.declared.place.Place.{Place};
ghost use Rattle.sl_rules.specs.Looks.{IsLook};
ghost use Rattle.sl_rules.specs.Means.Checks.{checks_of};
ghost use Rattle.sl_syntax.specs.Tree as s;
ghost use Rattle.sl_syntax.specs.declared.tree.identifier.Identifier.{Identifier};
ghost use Rattle.sl_typing.specs.declared.scope.Scope.{Scope};
ghost use Rattle.sl_typing.specs.declared.standing.Standing.{Standing};
ghost use Rattle.sl_typing.specs.Scopes as scopes;

use crate::checks::Checks;
use crate::fault::broken;
use crate::look::Look;
use crate::standings::is_before_part;
use sl_base::Scalar;
use sl_expr_types::type_of_use;
use sl_scopes::names::{is_unknown_variable, type_of_name};
use sl_syntax::Identifier;
use sl_typing::{ExprType, Scope, Standing, rules};

/// A number.
pub fn number_look() -> Look
    ensures { (g : Scope) (n : ℕ) (how : Standing) (at : Place) (m : ℕ) → IsLook g n how (s.number at m) result }
{
    Look {
        fault: None,
        expr_type: ExprType::Scalar(Scalar::Int),
        sites: 0,
    }
}

/// `true` or `false`.
pub fn truth_look() -> Look
    ensures { (g : Scope) (n : ℕ) (how : Standing) (at : Place) (x : Bool) → IsLook g n how (s.truth at x) result }
{
    Look {
        fault: None,
        expr_type: ExprType::Scalar(Scalar::Bool),
        sites: 0,
    }
}

// The rules that a name that stands so breaks, where this is the type of its variable.
#[tactic(auto, using(crate::proofs::CheckLaws::variants))]
fn name_checks(standing: Standing, variable: ExprType) -> Checks
    ensures { (g : Scope) (n : ℕ) (x : Identifier) → variable ≡ scopes.type_of_name g x.name
        → result ≡ checks_of g n standing (s.name x) }
{
    Checks {
        wrong_type: variable.is_entry() & !is_before_part(standing),
        ..Checks::NONE
    }
}

/// A name that stands so.
pub fn name_look(scope: &Scope, standing: Standing, name: &Identifier) -> Look
    ensures { (n : ℕ) → IsLook scope.now n standing (s.name name.now) result }
{
    let text = name.name.as_slice();
    let variable = type_of_name(scope, text);
    let unknown = broken(
        is_unknown_variable(scope, text),
        name.place,
        rules::UNKNOWN_NAME,
    );
    Look {
        fault: name_checks(standing, variable).fault_behind(unknown, name.place),
        expr_type: type_of_use(variable),
        sites: 0,
    }
}
