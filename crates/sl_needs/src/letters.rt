//! The letters of a row.
ghost use Rattle.std.specs.Prelude.{◌≡◌, ◌<◌, ◌≤◌, slice_index_or};
ghost use Rattle.sl_model.specs.LibraryCalls.Operands as spec;
ghost use Rattle.sl_needs.specs.Means.Letters.{takes_range, arguments_of};

use sl_specs::Letter;

/// Whether a letter stands for a range.
pub fn is_range(letter: Letter) -> bool
    ensures { result ≡ takes_range letter }
{
    matches!(
        letter,
        Letter::IntRange
            | Letter::SecondIntRange
            | Letter::WrittenRange
            | Letter::RandomAccessRange
            | Letter::AnyRange
    )
}

/// How many arguments a letter stands for, where no other than those for ranges of ints or of any elements stands for two.
pub fn width(letter: Letter) -> usize
    ensures value { result ≡ arguments_of letter }
    ensures few { result ≤ 2 }
{
    if is_range(letter) { 2 } else { 1 }
}

/// Whether the range of these may be the wrong way round, where that can be told.
pub fn may_go_back(letters: &[Letter]) -> bool
    ensures { result ≡ spec.may_go_back letters.now }
{
    matches!(letters, [Letter::AnyRange, ..])
}

/// The argument at which the only range of these begins, 1 where there is none.
pub fn first_range(letters: &[Letter]) -> usize
    ensures near { result < usize.MAX }
    ensures value { result ≡ slice_index_or (spec.ranges_of letters.now) 0 1 }
{
    let mut number = 1;
    for letter in letters {
        if is_range(*letter) {
            return number;
        }
        number += 1;
    }
    1
}
