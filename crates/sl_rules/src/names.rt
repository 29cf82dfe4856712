//! Names of the library that a rule speaks of.
ghost use Rattle.std.specs.Prelude.{◌≡◌, codes};
ghost use Rattle.std.specs.Str.{bytes_eq};
ghost use Rattle.sl_typing.specs.Rules as rule;

/// Whether it is `main`.
pub fn is_main_name(name: &[u8]) -> bool
    ensures { result ≡ rule.is_main_name name.now }
{
    name == b"main".as_slice()
}

/// Whether it is `assign`.
pub fn is_assign(name: &[u8]) -> bool
    ensures { result ≡ bytes_eq name.now (codes "assign") }
{
    name == b"assign".as_slice()
}

/// Whether it is `advance`.
pub fn is_advance(name: &[u8]) -> bool
    ensures { result ≡ bytes_eq name.now (codes "advance") }
{
    name == b"advance".as_slice()
}

/// Whether it is `back_inserter`.
pub fn is_back_inserter_name(name: &[u8]) -> bool
    ensures { result ≡ bytes_eq name.now (codes "back_inserter") }
{
    name == b"back_inserter".as_slice()
}
