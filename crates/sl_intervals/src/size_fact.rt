//! Facts on a number and a size.
ghost use Rattle.std.specs.Prelude.{◌≡◌, ◌&&◌};
ghost use Rattle.sl_intervals.specs.declared.size_fact.SizeFact.{SizeFact};
ghost use Rattle.sl_intervals.specs.SizeTable.{tells};

/// What is known of a scalar x and the size of a container c: nothing, `x <= size(c)`, or `x < size(c)`.
#[derive(Clone, Copy)]
pub enum SizeFact {
    Nothing,
    Upto,
    Below,
}

/// What both facts tell.
pub fn shared(a: SizeFact, b: SizeFact) -> SizeFact
    ensures { (fact : SizeFact) → tells result fact ≡ (tells a fact && tells b fact) }
{
    match (a, b) {
        (SizeFact::Nothing, _) => SizeFact::Nothing,
        (_, SizeFact::Nothing) => SizeFact::Nothing,
        (SizeFact::Below, other) => other,
        (SizeFact::Upto, _) => SizeFact::Upto,
    }
}
