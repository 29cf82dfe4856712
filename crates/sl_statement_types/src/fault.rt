//! Rules that are broken.
ghost use Rattle.std.specs.Prelude.{◌≡◌, ◌++◌, List};
ghost use Rattle.sl_typing.specs.declared.fault.Fault.{Fault as FaultSeen};
ghost use Rattle.sl_typing.specs.Faults as spec;
ghost use Rattle.sl_typing.specs.Typing.{first_of};

use sl_base::Place;
use sl_typing::Fault;

/// This rule, broken here, if the test says so.
pub fn broken(test: bool, place: Place, rule: u8) -> Option<Fault>
    ensures { result ≡ first_of (spec.broken test place rule) }
{
    if test {
        Some(Fault { place, rule })
    } else {
        None
    }
}

/// The first of two faults.
pub fn earlier(first: Option<Fault>, second: Option<Fault>) -> Option<Fault>
    ensures { (xs : List FaultSeen) (ys : List FaultSeen) → first ≡ first_of xs → second ≡ first_of ys → result ≡ first_of (xs ++ ys) }
{
    match first {
        None => second,
        Some(fault) => Some(fault),
    }
}
