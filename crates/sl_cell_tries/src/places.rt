//! Tries of the elements that cells tell.
use crate::choices::Choices;
use crate::pairs::is_element;
use crate::subject::Subject;
use crate::tally::Tally;
use sl_intervals::Interval;

/// Tries each place.
pub fn try_places<const N: usize>(subject: &Subject<N>, choices: &mut Choices, tally: &mut Tally) {
    for place in 0..subject.list.len() {
        let single = Interval {
            low: place as i128,
            high: place as i128,
        };
        tally.count(is_told(subject, place, single, subject.known));
        tally.count(is_told(subject, place, choices.near(place), false));
    }
}

// Whether what is told of an interval of places tells the element at one.
fn is_told<const N: usize>(subject: &Subject<N>, place: usize, at: Interval, known: bool) -> bool {
    match subject.list.get(place) {
        None => false,
        Some(x) => is_element(known, subject.cells.get(at), x),
    }
}
