ghost use Rattle.std.specs.Prelude.{◌≡◌, ◌+◌, ◌<◌, ◌≤◌, length, IfSome};
ghost use Rattle.sl_base.specs.Bytes as bytes;
ghost use Rattle.sl_base.specs.Comments as base;
ghost use Rattle.sl_base.specs.Pieces.{comment_piece};
ghost use Rattle.sl_base.specs.declared.limits.TheConstants.{TEXT_BYTES};
ghost use Rattle.sl_lexer.specs.Means.Answers.{answer_of};
ghost use Rattle.sl_lexer.specs.Means.Front as spec;

use crate::LexErr;
use crate::byte::begins;
use crate::front::Front;
use crate::line::{begins_joint, line_len};

/// How many bytes there are up to and with the first `*/`, if there is one.
fn comment_end(rest: &[u8]) -> Option<usize>
    ensures count { result ≡ base.comment_end rest.now }
    ensures within { IfSome result (λ n. n ≤ length rest.now) }
{
    for (i, byte) in rest.iter().enumerate() {
        if *byte == b'*' && begins(b'/', &rest[i + 1..]) {
            return Some(i + 2);
        }
    }
    None
}

/// How many bytes the comment at the front has, if one is there.
pub fn comment_len(rest: &[u8]) -> Option<usize>
    ensures count { result ≡ spec.comment_len rest.now }
    ensures within { IfSome result (λ n. n ≤ length rest.now) }
{
    if rest.starts_with(b"//") {
        Some(line_len(rest))
    } else if rest.starts_with(b"/*") {
        Some(comment_end(&rest[2..])? + 2)
    } else {
        None
    }
}

/// The first backslash directly before a line's end, among so many bytes at the front.
fn joint_in(len: usize, rest: &[u8]) -> Option<usize>
    requires { len ≤ length rest.now }
    ensures count { result ≡ spec.joint_in len rest.now }
    ensures within { IfSome result (λ n. n < length rest.now) }
{
    for i in 0..len {
        if begins_joint(&rest[i..]) {
            return Some(i);
        }
    }
    None
}

/// The comment of so many bytes at the front of the rest.
pub fn comment_front(rest: &[u8], from: usize, len: usize) -> Result<Front, LexErr>
    requires within { len ≤ length rest.now }
    requires short { from + length rest.now ≤ TEXT_BYTES }
    ensures { result ≡ answer_of from rest.now (spec.judged comment_piece len rest.now) }
{
    match joint_in(len, rest) {
        Some(n) => Err(LexErr::BadByte {
            offset: (from + n) as u32,
        }),
        None => Ok(Front { word: None, len }),
    }
}
