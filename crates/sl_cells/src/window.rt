//! Lists of known elements.
ghost use Rattle.std.specs.Prelude.{◌≡◌, ◌≤◌, ◌<◌, ◌+◌, ◌++◌, ◌∷◌, length, take, drop, reverse, slice_index_or};
ghost use Rattle.std.specs.List.{AllByRecursion, remove_range};
ghost use Rattle.arrayvec.specs.ArrayVec.{array_vec_len};
ghost use Rattle.sl_cells.specs.declared.item.Item.{Item};
ghost use Rattle.sl_cells.specs.Ranges.{IsUnion, IsWidening, IsItemwise};
ghost use Rattle.sl_cells.specs.Windows.{IsInt};

use crate::item::Item;
use arrayvec::ArrayVec;
use sl_base::Scalar;
use sl_intervals::{join, widen};

/// Puts these behind.
fn append<const N: usize>(known: &mut ArrayVec<Item, N>, items: &[Item])
    requires { array_vec_len known.old + length items.now ≤ N }
    ensures { known.new.items ≡ known.old.items ++ items.now }
{
    for item in items {
        known.push(*item);
    }
}

/// These.
pub fn copied<const N: usize>(items: &[Item]) -> ArrayVec<Item, N>
    requires { length items.now ≤ N }
    ensures { result.items ≡ items.now }
{
    let mut known = ArrayVec::new();
    append(&mut known, items);
    known
}

/// One between the first ones up to a place and those from another on.
pub fn with_item<const N: usize>(
    items: &[Item],
    front: usize,
    back: usize,
    item: Item,
) -> ArrayVec<Item, N>
    requires order { front ≤ back }
    requires inside { back ≤ length items.now }
    requires room { length items.now + front < N + back }
    ensures { result.items ≡ take front items.now ++ item ∷ drop back items.now }
{
    let mut known = ArrayVec::new();
    append(&mut known, &items[..front]);
    known.push(item);
    append(&mut known, &items[back..]);
    known
}

/// These without a stretch.
pub fn without<const N: usize>(items: &[Item], from: usize, to: usize) -> ArrayVec<Item, N>
    requires order { from ≤ to }
    requires inside { to ≤ length items.now }
    requires room { length items.now ≤ N }
    ensures { result.items ≡ remove_range items.now from to }
{
    let mut known = ArrayVec::new();
    append(&mut known, &items[..from]);
    append(&mut known, &items[to..]);
    known
}

/// These from the last to the first.
pub fn reversed<const N: usize>(items: &[Item]) -> ArrayVec<Item, N>
    requires { length items.now ≤ N }
    ensures { result.items ≡ reverse items.now }
{
    let mut known = copied(items);
    known.reverse();
    known
}

/// The element at a place.
fn item_at(items: &[Item], place: usize) -> Item
    requires { place < length items.now }
    ensures { (d : Item) → result ≡ slice_index_or items.now place d }
{
    items[place]
}

/// What two elements say together.
pub fn join_items(a: Item, b: Item) -> Item
    ensures key { IsUnion a.key b.key result.key }
    ensures value { IsUnion a.value b.value result.value }
{
    Item {
        key: join(a.key, b.key),
        value: join(a.value, b.value),
    }
}

/// What two lists of one length say together.
pub fn joined<const N: usize>(firsts: &[Item], seconds: &[Item]) -> ArrayVec<Item, N>
    requires same { length firsts.now ≡ length seconds.now }
    requires room { length firsts.now ≤ N }
    ensures { IsItemwise IsUnion firsts.now seconds.now result.items }
{
    let mut known = ArrayVec::new();
    for i in 0..firsts.len() {
        known.push(join_items(item_at(firsts, i), item_at(seconds, i)));
    }
    known
}

/// An element, widened by another.
pub fn widen_items(a: Item, b: Item, constants: &[i128]) -> Item
    requires first { IsInt a }
    requires second { IsInt b }
    ensures key { IsWidening constants.now a.key b.key result.key }
    ensures value { IsWidening constants.now a.value b.value result.value }
{
    Item {
        key: widen(a.key, b.key, constants, Scalar::Int),
        value: widen(a.value, b.value, constants, Scalar::Int),
    }
}

/// The elements of one list, widened by those of another of one length.
pub fn widened<const N: usize>(
    firsts: &[Item],
    seconds: &[Item],
    constants: &[i128],
) -> ArrayVec<Item, N>
    requires first { AllByRecursion IsInt firsts.now }
    requires second { AllByRecursion IsInt seconds.now }
    requires same { length firsts.now ≡ length seconds.now }
    requires room { length firsts.now ≤ N }
    ensures { IsItemwise (IsWidening constants.now) firsts.now seconds.now result.items }
{
    let mut known = ArrayVec::new();
    for i in 0..firsts.len() {
        known.push(widen_items(item_at(firsts, i), item_at(seconds, i), constants));
    }
    known
}
