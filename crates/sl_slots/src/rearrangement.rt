//! A container that is put together anew, by numbers.
ghost use Rattle.std.specs.Prelude.{◌≡◌};
ghost use Rattle.sl_slots.specs.Rearranging.{index_taken, kills_in, loses_in, place_in, place_taken, takes_old};

use crate::source::Source;

/// A container of a size is put together from these sources, at a site, and has a room then. Each element that no source
/// takes is invalidated, and so are all iterators where `all` is said.
#[derive(Drop)]
pub struct Rearrangement {
    pub container: usize,
    pub size: usize,
    pub sources: Vec<Source>,
    pub room: usize,
    pub all: bool,
    pub site: usize,
}

// Whether a source takes a place of the container itself.
fn takes(source: &Source, place: usize) -> bool
    ensures { result ≡ takes_old source.now place }
{
    match source {
        Source::Old(from) => *from == place,
        Source::Written(from, _) => *from == place,
        Source::Theirs(_) => false,
        Source::New(_) => false,
    }
}

/// The place to which the element at a place goes, if a source takes it.
pub fn place_of(sources: &[Source], place: usize) -> Option<usize>
    ensures { result ≡ place_taken sources.now place }
{
    for i in 0..sources.len() {
        if takes(&sources[i], place) {
            return Some(i);
        }
    }
    None
}

/// Whether the iterators at a place are invalidated.
pub fn rearrangement_kills(by: &Rearrangement, place: usize) -> bool
    ensures { result ≡ kills_in by.now place }
{
    if by.all {
        return true;
    }
    if place < by.size {
        rearrangement_loses(by, place)
    } else {
        false
    }
}

/// Whether the references to the element at a place are invalidated.
pub fn rearrangement_loses(by: &Rearrangement, place: usize) -> bool
    ensures { result ≡ loses_in by.now place }
{
    match place_of(&by.sources, place) {
        Some(_) => false,
        None => true,
    }
}

/// Where what stands at a place and isn't invalidated goes.
pub fn new_place(by: &Rearrangement, place: usize) -> usize
    ensures { result ≡ place_in by.now place }
{
    if place < by.size {
        match place_of(&by.sources, place) {
            Some(to) => to,
            None => place,
        }
    } else {
        by.sources.len()
    }
}
