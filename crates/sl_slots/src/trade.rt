//! Two containers that exchange elements, by numbers.
ghost use Rattle.std.specs.Prelude.{◌≡◌, ℕ, None};
ghost use Rattle.sl_slots.specs.Trading.{place_over, takes_theirs, traded, trade_fate, traded_place};

use crate::rearrangement::place_of;
use crate::slot::Slot;
use crate::source::Source;

/// One of two containers that exchange elements: its number, how many elements it has, the sources from which it is put
/// together, and the room that it has then.
#[derive(Drop)]
pub struct Side {
    pub container: usize,
    pub size: usize,
    pub sources: Vec<Source>,
    pub room: usize,
}

/// Two containers exchange elements at a site. No element is invalidated, and the ends of both are where it is said.
#[derive(Drop)]
pub struct Trade {
    pub first: Side,
    pub second: Side,
    pub ends: bool,
    pub site: usize,
}

// Whether a source takes a place of the other container.
fn takes(source: &Source, place: usize) -> bool
    ensures { result ≡ takes_theirs source.now place }
{
    match source {
        Source::Old(_) => false,
        Source::Written(_, _) => false,
        Source::Theirs(from) => *from == place,
        Source::New(_) => false,
    }
}

// The place to which the element at a place of the other container goes, if a source takes it.
fn place_beyond(sources: &[Source], place: usize) -> Option<usize>
    ensures { result ≡ place_over sources.now place }
{
    for i in 0..sources.len() {
        if takes(&sources[i], place) {
            return Some(i);
        }
    }
    None
}

// What becomes of an element that goes to a place of its own container, or else to one of the other.
fn element_goes(
    own: &Side,
    other: &Side,
    site: usize,
    kept: Option<usize>,
    given: Option<usize>,
) -> Slot
    ensures { result ≡ traded_place own.now.container kept other.now.container given site }
{
    match kept {
        Some(place) => Slot::Stands {
            container: own.container,
            place,
        },
        None => given_goes(other, site, given),
    }
}

// What becomes of an element that goes to a place of the other container.
fn given_goes(other: &Side, site: usize, given: Option<usize>) -> Slot
    ensures { (own : ℕ) → result ≡ traded_place own None other.now.container given site }
{
    match given {
        Some(place) => Slot::Stands {
            container: other.container,
            place,
        },
        None => Slot::Gone { site: Some(site) },
    }
}

// What becomes of what stands at a place of one of the two.
fn side_goes(own: &Side, other: &Side, ends: bool, site: usize, place: usize) -> Slot
    ensures { result ≡ traded own.now other.now ends site place }
{
    if place < own.size {
        let kept = place_of(&own.sources, place);
        let given = place_beyond(&other.sources, place);
        return element_goes(own, other, site, kept, given);
    }
    if ends {
        return Slot::Gone { site: Some(site) };
    }
    Slot::Stands {
        container: own.container,
        place: own.sources.len(),
    }
}

/// What becomes of what stands at a place of a container, where two exchange elements.
pub fn trade_goes(by: &Trade, container: usize, place: usize) -> Slot
    ensures { result ≡ trade_fate by.now container place }
{
    if container == by.first.container {
        return side_goes(&by.first, &by.second, by.ends, by.site, place);
    }
    if container == by.second.container {
        return side_goes(&by.second, &by.first, by.ends, by.site, place);
    }
    Slot::Stands { container, place }
}
