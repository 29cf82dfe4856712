//! What forms of containers are.
ghost use Rattle.std.specs.Prelude.{◌≡◌};
ghost use Rattle.sl_specs.specs.Forms as spec;

use sl_base::Form;

/// Whether its iterators are random access iterators.
pub fn is_random_access(form: Form) -> bool
    ensures { result ≡ spec.is_random_access form }
{
    matches!(form, Form::Vector | Form::Deque)
}

/// Whether its order is a hash order.
pub fn is_hash(form: Form) -> bool
    ensures { result ≡ spec.is_hash form }
{
    matches!(form, Form::HashSet | Form::HashMap)
}
