use sl_base::Items;
use sl_typing::NamedVariable;

/// What stands around a scope that has begun, and comes back where it ends.
#[derive(Drop)]
pub struct Outside {
    /// The variables in scope around it.
    pub variables: Items<NamedVariable>,
    /// How many of them stand around the scope that it began in.
    pub outer: usize,
    /// Whether it began in a loop.
    pub in_loop: bool,
}
