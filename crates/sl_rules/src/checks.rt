ghost use Rattle.std.specs.Prelude.{◌≡◌, ℕ};
ghost use Rattle.std.specs.Option.{option_or};
ghost use Rattle.sl_syntax.specs.Tree.{Expr};
ghost use Rattle.sl_typing.specs.declared.scope.Scope.{Scope};
ghost use Rattle.sl_typing.specs.declared.standing.Standing.{Standing};
ghost use Rattle.sl_typing.specs.Faults.{own_faults};
ghost use Rattle.sl_typing.specs.Looks.{place_of};
ghost use Rattle.sl_typing.specs.Typing.{first_of};

use crate::fault::broken;
use sl_base::Place;
use sl_typing::{Fault, rules};

/// Which of its own rules a node of an expression breaks.
#[derive(Clone, Copy)]
pub struct Checks {
    pub no_such_call: bool,
    pub wrong_type: bool,
    pub writes_to_const: bool,
    pub is_alias: bool,
    pub order_matters: bool,
    pub calls_main: bool,
    pub is_weaker: bool,
    pub is_lone_appender: bool,
    pub is_site_too_many: bool,
}

impl Checks {
    ghost use Rattle.sl_rules.specs.Means.Checks.{broken_by, checks_of};

    /// No rule is broken.
    pub const NONE: Checks = Checks {
        no_such_call: false,
        wrong_type: false,
        writes_to_const: false,
        is_alias: false,
        order_matters: false,
        calls_main: false,
        is_weaker: false,
        is_lone_appender: false,
        is_site_too_many: false,
    };

    /// The first rule that is broken, at this place.
    #[tactic(auto, using(crate::proofs::FirstLaws::first_of_append), unfolding(crate::specs::Means::Checks::broken_by))]
    pub fn first_fault(self, place: Place) -> Option<Fault>
        ensures { result ≡ first_of (broken_by self place) }
    {
        broken(self.no_such_call, place, rules::NO_SUCH_CALL)
            .or(broken(self.wrong_type, place, rules::WRONG_TYPE))
            .or(broken(self.writes_to_const, place, rules::WRITE_TO_CONST))
            .or(broken(self.is_alias, place, rules::ALIAS))
            .or(broken(self.order_matters, place, rules::ORDER_OF_EFFECTS))
            .or(broken(self.calls_main, place, rules::NO_MAIN))
            .or(broken(self.is_weaker, place, rules::WEAKER_ITERATOR))
            .or(broken(self.is_lone_appender, place, rules::APPENDER))
            .or(broken(self.is_site_too_many, place, rules::TOO_MANY_SITES))
    }

    /// The first of a fault, if there is one, and the first rule that a node breaks at its place.
    pub fn fault_behind(self, inner: Option<Fault>, place: Place) -> Option<Fault>
        ensures { (g : Scope) (n : ℕ) (how : Standing) (e : Expr) → place ≡ place_of e → self ≡ checks_of g n how e
            → result ≡ option_or inner (first_of (own_faults g n how e)) }
    {
        inner.or(self.first_fault(place))
    }
}
