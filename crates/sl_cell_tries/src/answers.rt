//! Tries of all that cells answer.
use crate::choices::Choices;
use crate::orders::{is_ascending, is_below_first, is_upto_first};
use crate::pairs::is_single;
use crate::places::try_places;
use crate::subject::Subject;
use crate::tally::Tally;
use sl_intervals::Sure;

/// Tries each place, and each order of a part.
pub fn try_answers<const N: usize>(subject: &Subject<N>, choices: &mut Choices, tally: &mut Tally) {
    try_places(subject, choices, tally);
    let last = choices.below(subject.list.len().saturating_add(1));
    let first = choices.below(last.saturating_add(1));
    try_part(subject, first, last, choices, tally);
    try_part(subject, 0, subject.list.len(), choices, tally);
}

// Tries each order between two places.
fn try_part<const N: usize>(
    subject: &Subject<N>,
    first: usize,
    last: usize,
    choices: &mut Choices,
    tally: &mut Tally,
) {
    let from = choices.near(first);
    let to = choices.near(last);
    let number = choices.int();
    let x = choices.around(number);
    let known = subject.known & is_single(from) & is_single(to);
    let (cells, list) = (&subject.cells, &subject.list);
    let ascends = is_ascending(list, first, last);
    let sorted = cells.is_sorted(from, to);
    tally.count(is_verdict(subject.ascends, known, ascends, sorted));
    let known = known & is_single(x);
    let below = is_below_first(list, first, last, number);
    let parted = cells.partition_below(from, to, x);
    tally.count(is_verdict(subject.ascends, known, below, parted));
    let upto = is_upto_first(list, first, last, number);
    let parted = cells.partition_above(from, to, x);
    tally.count(is_verdict(subject.ascends, known, upto, parted));
}

// Whether an answer is right, and tells it where it has to be known, or where all ascends.
fn is_verdict(ascends: bool, known: bool, so: bool, answer: Sure) -> bool {
    match answer {
        Sure::Always => so,
        Sure::Never => !so & !ascends,
        Sure::May => !known & !ascends,
    }
}
