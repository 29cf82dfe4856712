//! How many arguments letters stand for.
ghost use Rattle.std.specs.Prelude.{◌≡◌, map, ◌≤◌};
ghost use Rattle.std.specs.List.{sum};
ghost use Rattle.sl_typing.specs.Arguments as spec;

use crate::letters::letter::is_list;
use sl_specs::Letter;

/// Whether some of these letters stands for a list in braces. It takes no memory.
pub fn takes_list(letters: &[Letter]) -> bool
    ensures { result ≡ spec.takes_list letters.now }
{
    letters.iter().any(|letter| is_list(*letter))
}

/// Whether these letters stand for so many arguments in parentheses. It takes no memory.
pub fn takes_count(letters: &[Letter], count: usize) -> bool
    ensures { result ≡ spec.takes_count letters.now count }
{
    !takes_list(letters) & (fewest_of(letters) <= count) & (count <= most_of(letters))
}

// The fewest arguments that a letter stands for.
fn fewest(letter: Letter) -> usize
    ensures value { result ≡ spec.fewest letter }
    ensures few { result ≤ 2 }
{
    match letter {
        Letter::OptionalDistance => 0,
        Letter::OwnRange
        | Letter::IntRange
        | Letter::SecondIntRange
        | Letter::WrittenRange
        | Letter::RandomAccessRange
        | Letter::AnyRange => 2,
        _ => 1,
    }
}

// The most.
fn most(letter: Letter) -> usize
    ensures value { result ≡ spec.most letter }
    ensures few { result ≤ 2 }
{
    match letter {
        Letter::OptionalDistance => 1,
        other => fewest(other),
    }
}

// The fewest of all.
fn fewest_of(letters: &[Letter]) -> usize
    ensures { result ≡ sum (map spec.fewest letters.now) }
{
    let mut count = 0;
    for letter in letters {
        count += fewest(*letter);
    }
    count
}

// The most of all.
fn most_of(letters: &[Letter]) -> usize
    ensures { result ≡ sum (map spec.most letters.now) }
{
    let mut count = 0;
    for letter in letters {
        count += most(*letter);
    }
    count
}
