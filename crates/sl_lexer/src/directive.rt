ghost use Rattle.std.specs.Prelude.{◌≡◌, ◌==◌, ◌&&◌, ◌+◌, ◌<◌, ◌≤◌, length, IfSome};
ghost use Rattle.sl_base.specs.Directives as base;
ghost use Rattle.sl_base.specs.Headers as headers;
ghost use Rattle.sl_base.specs.declared.limits.TheConstants.{TEXT_BYTES};
ghost use Rattle.sl_lexer.specs.Means.Answers.{answer_of};
ghost use Rattle.sl_lexer.specs.Means.Front as spec;
ghost use Rattle.sl_lexer.specs.declared.byte.First.TheVariants.{Hash};

use crate::LexErr;
use crate::byte::begins;
use crate::front::Front;
use crate::keyword::any_equal;
use crate::line::{begins_line_end, spaces_len};
use crate::name::name_len;

/// The headers that a directive may name.
const HEADERS: [&str; 12] = [
    "vector",
    "deque",
    "list",
    "set",
    "map",
    "unordered_set",
    "unordered_map",
    "algorithm",
    "numeric",
    "iterator",
    "iostream",
    "cstddef",
];

/// Whether a directive may name this header.
fn is_header(name: &[u8]) -> bool
    ensures { result ≡ headers.is_header name.now }
{
    any_equal(&HEADERS, name)
}

/// How many bytes `<`, the name of a header and `>` at the front have, if they are there.
fn header_len(rest: &[u8]) -> Option<usize>
    ensures count { result ≡ spec.header_len rest.now }
    ensures within { IfSome result (λ n. n ≤ length rest.now) }
{
    if !begins(b'<', rest) {
        return None;
    }
    let name = &rest[1..];
    let len = name_len(name);
    if is_header(&name[..len]) && begins(b'>', &name[len..]) {
        Some(len + 2)
    } else {
        None
    }
}

/// How many bytes `include`, spaces and tabs and a header at the front have, if they are there.
fn include_len(rest: &[u8]) -> Option<usize>
    ensures count { result ≡ spec.include_len rest.now }
    ensures within { IfSome result (λ n. n ≤ length rest.now) }
{
    if !rest.starts_with(b"include") {
        return None;
    }
    let behind = &rest[7..];
    let spaces = spaces_len(behind);
    Some(spaces + header_len(&behind[spaces..])? + 7)
}

/// How many bytes `#` and the directive behind it have, if that is there.
fn hash_len(rest: &[u8]) -> Option<usize>
    requires { 0 < length rest.now }
    ensures count { result ≡ spec.hash_len rest.now }
    ensures within { IfSome result (λ n. n ≤ length rest.now) }
{
    let behind = &rest[1..];
    let spaces = spaces_len(behind);
    Some(spaces + include_len(&behind[spaces..])? + 1)
}

/// Whether a directive may begin behind so many tokens, on a line that is or is not blank so far.
pub fn opens_directive(tokens: usize, blank_line: bool) -> bool
    ensures { result ≡ ((tokens == 0) && blank_line) }
{
    tokens == 0 && blank_line
}

/// Whether what stands here lets a directive end before it.
fn closes_directive(behind: &[u8]) -> bool
    ensures { result ≡ base.closes_directive behind.now }
{
    let rest = &behind[spaces_len(behind)..];
    rest.is_empty() || begins_line_end(rest) || rest.starts_with(b"//")
}

/// The directive at the front of the rest, which begins with `#`; `opens` says whether one may begin here.
pub fn directive_front(rest: &[u8], from: usize, opens: bool) -> Result<Front, LexErr>
    requires some { 0 < length rest.now }
    requires short { from + length rest.now ≤ TEXT_BYTES }
    ensures { result ≡ answer_of from rest.now (spec.front_in Hash opens rest.now) }
{
    match hash_len(rest) {
        Some(len) if opens && closes_directive(&rest[len..]) => Ok(Front { word: None, len }),
        _ => Err(LexErr::BadDirective {
            offset: from as u32,
        }),
    }
}
