//! What forms of containers are like.
ghost use Rattle.std.specs.Prelude.{◌≡◌};
ghost use Rattle.sl_specs.specs.Forms as spec;
ghost use Rattle.sl_syntax.specs.Written as written;

use sl_base::Form;

/// Whether two forms are one.
pub fn same_form(x: Form, y: Form) -> bool
    ensures { result ≡ spec.same_form x y }
{
    x as u8 == y as u8
}

/// Whether its elements are pairs of a key and a value.
pub fn is_map(form: Form) -> bool
    ensures { result ≡ written.is_map form }
{
    matches!(form, Form::Map | Form::HashMap | Form::MultiMap)
}

/// Whether its elements are known by keys.
pub fn is_keyed(form: Form) -> bool
    ensures { result ≡ spec.is_keyed form }
{
    !matches!(form, Form::Vector | Form::Deque | Form::List)
}

/// Whether its order is a hash order.
pub fn is_hash(form: Form) -> bool
    ensures { result ≡ spec.is_hash form }
{
    matches!(form, Form::HashSet | Form::HashMap)
}

/// Whether its iterators are random access iterators.
pub fn is_random_access(form: Form) -> bool
    ensures { result ≡ spec.is_random_access form }
{
    matches!(form, Form::Vector | Form::Deque)
}
