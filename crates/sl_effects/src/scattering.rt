//! Hash orders, which picks choose.
ghost use Rattle.std.specs.Prelude.{◌≡◌, ◌+◌, ◌≤◌, ◌<◌, ◌^◌, IfOk};
ghost use Rattle.sl_model.specs.Memory.Edits.{numbers};
ghost use Rattle.sl_model.specs.Memory.Schedule.{after_picks, hash_place as place_by_pick, scattered};
ghost use Rattle.sl_effects.specs.Carried.{left_in};

use crate::picks::Picks;
use std::alloc::{AllocError, Global};

/// The places of so many elements in the order in which picks put them into a hash form: one pick for each, after
/// some others. Nothing is taken yet.
pub fn scatter(
    alloc: Global,
    count: usize,
    picks: &Picks,
    after: usize,
) -> Result<Vec<usize>, AllocError>
    requires { after + count < 2 ^ 63 }
    ensures { IfOk result (λ order. order.items
        ≡ scattered (after_picks after (left_in picks.now)) (numbers 0 count)) }
{
    let mut order = Vec::new(alloc);
    for place in 0..count {
        let at = hash_place(order.len(), picks.peek(after + place));
        order.insert(at, place)?;
    }
    Ok(order)
}

/// The place at which a pick puts an element into a hash order of so many.
pub fn hash_place(size: usize, pick: u32) -> usize
    requires { size < 2 ^ 63 }
    ensures value { result ≡ place_by_pick size pick }
    ensures within { result ≤ size }
{
    pick as usize % (size + 1)
}
