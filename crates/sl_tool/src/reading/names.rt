//! Names among names.
ghost use Rattle.std.specs.Prelude.{◌≡◌, ◌<◌, ◌≤◌, ◌↔◌, length, Contains};
ghost use Rattle.sl_tool.specs.Subset.{number_of_name};

use sl_base::Name;

/// The same name. It takes no memory.
pub fn copy_of(name: &Name) -> Name
    ensures { result ≡ name.now }
{
    Name::new(name.as_slice())
}

/// The number of a name among these, and how many they are where it isn't one of them.
pub fn number_of(names: &[Name], name: &Name) -> usize
    ensures value { result ≡ number_of_name names.now name.now }
    ensures found { (result < length names.now) ↔ Contains names.now name.now }
    ensures bound { result ≤ length names.now }
{
    names
        .iter()
        .position(|there| there.as_slice() == name.as_slice())
        .unwrap_or(names.len())
}
