//! The names that are declared in a text, each once.
ghost use Rattle.std.specs.Prelude.{◌≡◌, IfOk, OnErr, OnOk, position};
ghost use Rattle.std.specs.Str.{bytes_eq};
ghost use Rattle.sl_typing.specs.Contexts as spec;

use sl_base::{Items, Name};
use std::alloc::AllocError;

/// The same name. It takes no memory.
pub fn copy_of(name: &Name) -> Name
    ensures { result ≡ name.now }
{
    Name::new(name.as_slice())
}

// The first place of a name among these, from 0.
fn place_among(names: &[Name], name: &[u8]) -> Option<usize>
    ensures { result ≡ position (λ own. bytes_eq own name.now) names.now }
{
    names.iter().position(|own| own.as_slice() == name)
}

/// The number of a name among the names, behind which it is put where it isn't there. Where memory runs out, they stay as they were.
pub fn number_among(names: &mut Items<Name>, name: &Name) -> Result<usize, AllocError>
    ensures names { OnOk result (names.new ≡ spec.with_name name.now names.old) }
    ensures number { IfOk result (λ number. number ≡ spec.position name.now (spec.with_name name.now names.old)) }
    ensures kept { OnErr result (names.new ≡ names.old) }
{
    match place_among(names.as_slice(), name.as_slice()) {
        Some(number) => Ok(number),
        None => {
            let number = names.len();
            names.push(copy_of(name))?;
            Ok(number)
        }
    }
}
