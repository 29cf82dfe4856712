ghost use Rattle.std.specs.Prelude.{◌≡◌};

use crate::tree::{Expr, Identifier, ReferenceHead};
use sl_base::{Form, Place, Scalar};

/// The type of a container of `int`, at its first token: `std::vector<int>`, `std::map<int, int>`.
#[derive(Clone, Copy)]
pub struct ContainerType {
    pub place: Place,
    pub form: Form,
}

impl ContainerType {
    ghost use Rattle.sl_syntax.specs.Written.{is_map};

    /// Whether its elements are keys with their values.
    pub fn is_map(self) -> bool
        ensures { result ≡ is_map self.form }
    {
        matches!(self.form, Form::Map | Form::HashMap | Form::MultiMap)
    }
}

/// What a container is made from.
#[derive(Drop)]
pub enum Initializer {
    /// nothing
    Absent,
    /// `= other`
    Copy(Identifier),
    /// `{..}`, or with a `=` before it
    Braces { equal: bool, elements: Vec<Expr> },
    /// `(..)`, at least one argument
    Arguments(Vec<Expr>),
}

/// The declaration of a variable, without its `;`.
#[derive(Drop)]
pub enum Declaration {
    /// `int x` or `int x = ..`, at its first token
    Scalar {
        place: Place,
        scalar: Scalar,
        name: Identifier,
        value: Option<Expr>,
    },
    /// `auto x = ..`, at its first token
    Auto {
        place: Place,
        name: Identifier,
        value: Expr,
    },
    /// `const int& r = ..`
    Reference {
        head: ReferenceHead,
        name: Identifier,
        value: Expr,
    },
    /// `std::vector<int> v` and what it is made from
    Container {
        container: ContainerType,
        name: Identifier,
        initializer: Initializer,
    },
}
