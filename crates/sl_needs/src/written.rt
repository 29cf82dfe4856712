//! How many elements an algorithm writes.
ghost use Rattle.std.specs.Prelude.{◌≡◌, ◌≤◌, ◌+◌, ◌-◌, ◌&&◌, length, map, not, false};
ghost use Rattle.sl_model.specs.LibraryCalls.Operands as operands;
ghost use Rattle.sl_model.specs.LibraryCalls.Situation.{Situation};
ghost use Rattle.sl_arguments.specs.Readings.{Reads, key_of};
ghost use Rattle.sl_needs.specs.Means.Merging as spec;

use crate::orders::is_ascending;
use sl_arguments::Arguments;
use sl_slots::Element;
use sl_specs::Call;

// The elements from the first on whose key isn't below a number.
fn from_key<'a>(elements: &'a [Element], key: i32) -> &'a [Element]
    ensures { map key_of result.now ≡ spec.from_key key (map key_of elements.now) }
{
    for i in 0..elements.len() {
        if !(elements[i].key < key) {
            return &elements[i..];
        }
    }
    &[]
}

// Whether the first element has a key.
fn starts_with(elements: &[Element], key: i32) -> bool
    ensures { result ≡ spec.starts_with key (map key_of elements.now) }
{
    match elements {
        [first, ..] => (key <= first.key) & (first.key <= key),
        [] => false,
    }
}

// The elements behind the first where that has a key.
fn behind_key<'a>(elements: &'a [Element], key: i32) -> &'a [Element]
    ensures { map key_of result.now ≡ spec.behind_key key (map key_of elements.now) }
{
    if starts_with(elements, key) {
        &elements[1..]
    } else {
        elements
    }
}

// 1 where the first element doesn't have a key.
fn missed(elements: &[Element], key: i32) -> usize
    ensures value { result ≡ spec.missed key (map key_of elements.now) }
    ensures few { result ≤ 1 }
{
    if starts_with(elements, key) { 0 } else { 1 }
}

// How many elements are left where each of the others, which ascend likewise, takes one of its key away.
fn left_over(elements: &[Element], others: &[Element]) -> usize
    ensures value { result ≡ spec.left_over (map key_of elements.now) (map key_of others.now) }
    ensures few { result ≤ length elements.now }
{
    let mut rest = others;
    let mut count = 0;
    for element in elements {
        let near = from_key(rest, element.key);
        count += missed(near, element.key);
        rest = behind_key(near, element.key);
    }
    count
}

// How many elements an algorithm writes, from those of its two ranges.
fn counted(call: Call, first: &[Element], second: &[Element]) -> usize
    ensures { result ≡ spec.counted call (map key_of first.now) (map key_of second.now) }
{
    match call {
        Call::Merge => first.len() + second.len(),
        Call::SetUnion => first.len() + left_over(second, first),
        Call::SetIntersection => first.len() - left_over(first, second),
        Call::SetDifference => left_over(first, second),
        _ => first.len(),
    }
}

/// Whether a call is a set operation.
fn is_set_operation(call: Call) -> bool
    ensures { result ≡ operands.is_set_operation call }
{
    matches!(
        call,
        Call::SetUnion | Call::SetIntersection | Call::SetDifference
    )
}

// Whether both ranges are in order.
fn are_in_order(arguments: &Arguments) -> bool
    ensures { (s : Situation) → Reads arguments.now s → result ≡ operands.are_ascending s }
{
    is_ascending(arguments.range(1)) & is_ascending(arguments.range(3))
}

// How many elements an algorithm writes; a set operation, where both ranges are in order.
fn written_count(arguments: &Arguments, call: Call) -> usize
    ensures { (s : Situation) → Reads arguments.now s → (operands.is_set_operation call && not (operands.are_ascending s)) ≡ false →
        result ≡ length (operands.written_keys call s) }
{
    counted(call, arguments.range(1), arguments.range(3))
}

/// How many elements an algorithm writes, where that is told: a set operation tells it where both ranges are in order.
pub fn output_count(arguments: &Arguments, call: Call) -> Option<usize>
    ensures { (s : Situation) → Reads arguments.now s → result ≡ operands.output_count call s }
{
    if is_set_operation(call) & !are_in_order(arguments) {
        None
    } else {
        Some(written_count(arguments, call))
    }
}
