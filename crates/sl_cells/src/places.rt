//! Places in a list.
ghost use Rattle.std.specs.Prelude.{◌≡◌, ◌<◌, ◌≤◌, ℕ, pos, IfSome, IfNone};
ghost use Rattle.sl_intervals.specs.Intervals.{IsSingle};

use sl_intervals::Interval;

/// The only member, where it is a place in a list of this length or its end.
pub fn only_place(at: Interval, length: usize) -> Option<usize>
    ensures some { IfSome result (λ p. IsSingle at (pos p)) }
    ensures inside { IfSome result (λ p. p ≤ length) }
    ensures none { IfNone result ((p : ℕ) → p ≤ length → IsSingle at (pos p) → ⊥) }
{
    if at.low != at.high {
        return None;
    }
    if at.low < 0 {
        return None;
    }
    if at.low > length as i128 {
        return None;
    }
    Some(at.low as usize)
}

/// The only member, where it is a place in a list of this length.
pub fn only_index(at: Interval, length: usize) -> Option<usize>
    ensures some { IfSome result (λ p. IsSingle at (pos p)) }
    ensures inside { IfSome result (λ p. p < length) }
    ensures none { IfNone result ((p : ℕ) → p < length → IsSingle at (pos p) → ⊥) }
{
    if length == 0 {
        return None;
    }
    only_place(at, length - 1)
}

/// The only members, where a part of a list of this length lies between them.
pub fn only_part(from: Interval, to: Interval, length: usize) -> Option<(usize, usize)>
    ensures first { IfSome result (λ p. IsSingle from (pos p.0)) }
    ensures last { IfSome result (λ p. IsSingle to (pos p.1)) }
    ensures order { IfSome result (λ p. p.0 ≤ p.1) }
    ensures inside { IfSome result (λ p. p.1 ≤ length) }
    ensures none { IfNone result
        ((f t : ℕ) → f ≤ t → t ≤ length → IsSingle from (pos f) → IsSingle to (pos t) → ⊥) }
{
    let last = only_place(to, length)?;
    let first = only_place(from, last)?;
    Some((first, last))
}
