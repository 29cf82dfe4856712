ghost use Rattle.std.specs.Prelude.{◌≡◌, ◌+◌};
ghost use Rattle.sl_expr_types.specs.Capped.{capped};
ghost use Rattle.sl_expr_types.specs.Means.Counts as counts;

use sl_expr_types::capped_sum;
use sl_typing::Standing;

/// What is known of a node beside its parts.
#[derive(Clone, Copy)]
pub struct Node {
    /// How many sites stand before it, as far as they count.
    pub before: usize,
    pub standing: Standing,
    /// Whether it breaks the rule on the order of effects.
    pub order_matters: bool,
}

// One, if the test says so.
fn one_if(test: bool) -> usize
    ensures { result ≡ counts.one_if test }
{
    if test { 1 } else { 0 }
}

/// A number of sites with a node's own, if it is one.
pub fn with_own(sites: usize, is_site: bool) -> usize
    ensures { result ≡ capped (sites + counts.one_if is_site) }
{
    capped_sum(sites, one_if(is_site))
}
