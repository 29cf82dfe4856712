use sl_base::Place;

/// A rule of typing that is broken at a place: the number of the rule, of those in `rules`.
#[derive(Clone, Copy)]
pub struct Fault {
    pub place: Place,
    pub rule: u8,
}
