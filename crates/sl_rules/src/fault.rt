ghost use Rattle.std.specs.Prelude.{◌≡◌};
ghost use Rattle.sl_typing.specs.Faults as spec;
ghost use Rattle.sl_typing.specs.Typing.{first_of};

use sl_base::Place;
use sl_typing::Fault;

/// This rule, broken here, if the test says so.
pub fn broken(test: bool, place: Place, rule: u8) -> Option<Fault>
    ensures { result ≡ first_of (spec.broken test place rule) }
{
    if test {
        Some(Fault { place, rule })
    } else {
        None
    }
}
