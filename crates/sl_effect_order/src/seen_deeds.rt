ghost use Rattle.std.specs.Prelude.{◌≡◌, List, ℕ, Bool};
ghost use Rattle.sl_typing.specs.Order as spec;
ghost use Rattle.sl_effect_order.specs.Means.Seen as means;

// What a part does, as another part beside it sees it.
#[derive(Clone, Copy)]
pub struct SeenDeeds {
    // Whether it holds a change.
    pub changes: bool,
    // Whether it holds a write of an element.
    pub writes: bool,
    // Whether the other part is still for each variable that it changes.
    pub spares: bool,
}

// No change and no write.
#[tactic(auto, unfolding(crate::specs::Means::Seen::seen))]
pub fn nothing_done() -> SeenDeeds
    ensures { (test : List ℕ → Bool) → result ≡ means.seen test spec.nothing_done }
{
    SeenDeeds {
        changes: false,
        writes: false,
        spares: true,
    }
}

// A write of elements alone.
#[tactic(auto, unfolding(crate::specs::Means::Seen::seen))]
pub fn writing() -> SeenDeeds
    ensures { (test : List ℕ → Bool) → result ≡ means.seen test spec.writing }
{
    SeenDeeds {
        changes: false,
        writes: true,
        spares: true,
    }
}

// A change of variables, for all of which the other part is still, or for some isn't.
#[tactic(auto, unfolding(crate::specs::Means::Seen::change_seen))]
pub fn changing(spares: bool) -> SeenDeeds
    ensures { result ≡ means.change_seen spares }
{
    SeenDeeds {
        changes: true,
        writes: false,
        spares,
    }
}

// What two parts do.
#[tactic(auto, unfolding(crate::specs::Means::Seen::both_seen))]
pub fn both(x: SeenDeeds, y: SeenDeeds) -> SeenDeeds
    ensures { result ≡ means.both_seen x y }
{
    SeenDeeds {
        changes: x.changes | y.changes,
        writes: x.writes | y.writes,
        spares: x.spares & y.spares,
    }
}
