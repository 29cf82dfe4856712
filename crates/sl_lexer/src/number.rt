ghost use Rattle.std.specs.Prelude.{◌≡◌, ◌+◌, ◌<◌, ◌≤◌, length, nat_lt, IsTrue, None, Some, if◌then◌else◌};
ghost use Rattle.sl_base.specs.Bytes as bytes;
ghost use Rattle.sl_base.specs.Pieces as base;
ghost use Rattle.sl_base.specs.Pieces.{number_piece};
ghost use Rattle.sl_base.specs.declared.limits.TheConstants.{LARGEST_NUMBER, TEXT_BYTES};
ghost use Rattle.sl_lexer.specs.Means.Answers.{answer_of};
ghost use Rattle.sl_lexer.specs.Means.Front as spec;
ghost use Rattle.std.specs.List.{list_all, prefix_len};

use crate::LexErr;
use crate::byte::{is_digit, spoils_number};
use crate::front::Front;
use sl_base::Word;
use sl_base::limits::LARGEST_NUMBER;

/// How many digits stand at the front.
fn digits_len(rest: &[u8]) -> usize
    ensures count { result ≡ prefix_len bytes.is_digit rest.now }
    ensures within { result ≤ length rest.now }
{
    for (i, byte) in rest.iter().enumerate() {
        if !is_digit(*byte) {
            return i;
        }
    }
    rest.len()
}

/// How many bytes of a number stand at the front: after `0` no digit follows.
fn number_len(rest: &[u8]) -> usize
    requires { 0 < length rest.now }
    ensures count { result ≡ spec.number_len rest.now }
    ensures within { result ≤ length rest.now }
{
    if rest[0] == b'0' { 1 } else { digits_len(rest) }
}

/// The number that digits write, if it is not past the largest.
fn decimal(digits: &[u8]) -> Option<u32>
    requires { IsTrue (list_all bytes.is_digit digits.now) }
    ensures { result ≡
        (if nat_lt LARGEST_NUMBER (base.decimal digits.now) then None else Some (base.decimal digits.now)) }
{
    let largest = u64::from(LARGEST_NUMBER);
    let mut value = 0;
    for digit in digits {
        value = 10 * value + u64::from(*digit - b'0');
        if value > largest {
            return None;
        }
    }
    Some(value as u32)
}

/// Whether what begins here may not directly follow a number.
fn spoils(rest: &[u8]) -> bool
    ensures { result ≡ bytes.begins bytes.spoils_number rest.now }
{
    match rest {
        [first, ..] => spoils_number(*first),
        [] => false,
    }
}

/// The number at the front of the rest, which begins with a digit.
pub fn number_front(rest: &[u8], from: usize) -> Result<Front, LexErr>
    requires digit { IsTrue (bytes.begins bytes.is_digit rest.now) }
    requires short { from + length rest.now ≤ TEXT_BYTES }
    ensures { result ≡ answer_of from rest.now (spec.judged number_piece (spec.number_len rest.now) rest.now) }
{
    let len = number_len(rest);
    match decimal(&rest[..len]) {
        Some(value) if !spoils(&rest[len..]) => Ok(Front {
            word: Some(Word::Number(value)),
            len,
        }),
        _ => Err(LexErr::BadNumber {
            offset: from as u32,
        }),
    }
}
