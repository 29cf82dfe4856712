//! Orders of elements, asked of known elements.
ghost use Rattle.std.specs.Prelude.{◌≡◌, ◌≢◌, ◌⊎◌, ◌<◌, ◌≤◌, ◌≤ℤ◌, ◌<ℤ◌, ℕ, ℤ, suc, true, false, List, length};
ghost use Rattle.std.specs.Prelude.{slice_index_or, slice_range};
ghost use Rattle.std.specs.List.{AllZip};
ghost use Rattle.sl_intervals.specs.declared.sure.Sure.{Sure};
ghost use Rattle.sl_cells.specs.declared.item.Item.{Item};
ghost use Rattle.sl_cells.specs.declared.order.Order.{Order};
ghost use Rattle.sl_cells.specs.declared.sorted.Sorted.{Sorted};
ghost use Rattle.sl_cells.specs.Edits.{IsBetween};
ghost use Rattle.sl_cells.specs.Orders.{IsAscending};
ghost use Rattle.sl_cells.specs.Windows.{HoldsItem, ShowsOrder};
ghost use Rattle.sl_cells.specs.Means.Comparisons.{IsComparison, IsWeighing};

use crate::item::Item;
use crate::sorted::Sorted;
use sl_intervals::{Interval, Sure};

/// An order of elements: their keys ascend, those with a key below a number come first, or those with a key that isn't
/// above it come first.
#[derive(Clone, Copy)]
pub enum Order {
    Ascending,
    LessFirst,
    UptoFirst,
}

/// Whether keys in `b` may stand behind keys in `a` where keys ascend.
fn ascending(x: Interval, a: Interval, b: Interval) -> Sure
    ensures { IsComparison Order.Ascending x a b result }
{
    if a.high <= b.low {
        return Sure::Always;
    }
    if b.high < a.low {
        Sure::Never
    } else {
        Sure::May
    }
}

/// Whether keys in `b` may stand behind keys in `a` where those below a member of `x` come first.
fn below(x: Interval, a: Interval, b: Interval) -> Sure
    ensures { IsComparison Order.LessFirst x a b result }
{
    if a.high < x.low {
        return Sure::Always;
    }
    if x.high <= b.low {
        return Sure::Always;
    }
    if a.high <= b.low {
        return Sure::Always;
    }
    if a.low < x.high {
        return Sure::May;
    }
    if b.high < x.low {
        Sure::Never
    } else {
        Sure::May
    }
}

/// Whether keys in `b` may stand behind keys in `a` where those not above a member of `x` come first.
fn above(x: Interval, a: Interval, b: Interval) -> Sure
    ensures { IsComparison Order.UptoFirst x a b result }
{
    if a.high <= x.low {
        return Sure::Always;
    }
    if x.high < b.low {
        return Sure::Always;
    }
    if a.high <= b.low {
        return Sure::Always;
    }
    if a.low <= x.high {
        return Sure::May;
    }
    if b.high <= x.low {
        Sure::Never
    } else {
        Sure::May
    }
}

/// Whether keys in `b` may stand behind keys in `a`.
fn compare(order: Order, x: Interval, a: Interval, b: Interval) -> Sure
    ensures { IsComparison order x a b result }
{
    match order {
        Order::Ascending => ascending(x, a, b),
        Order::LessFirst => below(x, a, b),
        Order::UptoFirst => above(x, a, b),
    }
}

/// Whether two things both happen.
fn both(a: Sure, b: Sure) -> Sure
    ensures first { result ≡ Sure.Always → a ≡ Sure.Always }
    ensures second { result ≡ Sure.Always → b ≡ Sure.Always }
    ensures never { result ≡ Sure.Never → (a ≡ Sure.Never ⊎ b ≡ Sure.Never) }
    ensures always { a ≡ Sure.Always → b ≡ Sure.Always → result ≡ Sure.Always }
    ensures exact { a ≢ Sure.May → b ≢ Sure.May → result ≢ Sure.May }
{
    match (a, b) {
        (Sure::Never, _) => Sure::Never,
        (_, Sure::Never) => Sure::Never,
        (Sure::Always, other) => other,
        (Sure::May, _) => Sure::May,
    }
}

/// The key at a place.
fn key_at(items: &[Item], place: usize) -> Interval
    requires { place < length items.now }
    ensures { (d : Item) → result ≡ (slice_index_or items.now place d).key }
{
    items[place].key
}

/// Whether these elements stand in the order.
pub fn weigh(order: Order, x: Interval, items: &[Item]) -> Sure
    ensures { IsWeighing order x items.now result }
{
    let mut sure = Sure::Always;
    for i in 1..items.len() {
        sure = both(
            sure,
            compare(order, x, key_at(items, i - 1), key_at(items, i)),
        );
    }
    sure
}

/// Whether the elements of a part stand in the order.
pub fn weigh_part(order: Order, x: Interval, items: &[Item], from: usize, to: usize) -> Sure
    requires order { from ≤ to }
    requires inside { to ≤ length items.now }
    ensures { IsWeighing order x (slice_range items.now from to) result }
{
    weigh(order, x, &items[from..to])
}

/// Whether the keys of these elements surely ascend.
pub fn shown_order(items: &[Item]) -> Sorted
    ensures yes { (ys : List (ℤ × ℤ)) → result ≡ Sorted.Yes → AllZip HoldsItem items.now ys → IsAscending ys }
    ensures shown { ShowsOrder items.now → result ≡ Sorted.Yes }
{
    let nothing = Interval { low: 0, high: 0 };
    match weigh(Order::Ascending, nothing, items) {
        Sure::Always => Sorted::Yes,
        _ => Sorted::Unknown,
    }
}

/// Whether a key surely isn't below that of the element in front of a place.
fn is_behind(items: &[Item], place: usize, key: Interval) -> bool
    requires { place ≤ length items.now }
    ensures behind { result ≡ true →
        (k : ℕ) (d : Item) → suc k ≡ place → (slice_index_or items.now k d).key.high ≤ℤ key.low }
    ensures not_behind { result ≡ false →
        (k : ℕ) × (suc k ≡ place) × ((d : Item) → key.low <ℤ (slice_index_or items.now k d).key.high) }
{
    if place == 0 {
        return true;
    }
    key_at(items, place - 1).high <= key.low
}

/// Whether a key surely isn't above that of the element at a place.
fn is_before(items: &[Item], place: usize, key: Interval) -> bool
    requires { place ≤ length items.now }
    ensures before { result ≡ true →
        (d : Item) → place < length items.now → key.high ≤ℤ (slice_index_or items.now place d).key.low }
    ensures not_before { result ≡ false →
        (place < length items.now) × ((d : Item) → (slice_index_or items.now place d).key.low <ℤ key.high) }
{
    if place >= items.len() {
        return true;
    }
    key.high <= key_at(items, place).low
}

/// Whether neighbours show that a key fits between the first elements up to a place and those from another on.
pub fn fits_between(items: &[Item], front: usize, back: usize, key: Interval) -> bool
    requires front { front ≤ length items.now }
    requires back { back ≤ length items.now }
    ensures fits { result ≡ true → IsBetween items.now front back key }
    ensures misfits { result ≡ false → IsBetween items.now front back key → ⊥ }
{
    is_behind(items, front, key) & is_before(items, back, key)
}
