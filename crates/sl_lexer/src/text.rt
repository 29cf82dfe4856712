ghost use Rattle.std.specs.Prelude.{◌≡◌, ◌<◌, ◌≤◌, ◌+◌, length, false, IfSome, Some, if◌then◌else◌};
ghost use Rattle.sl_base.specs.Quoted as base;
ghost use Rattle.sl_base.specs.declared.limits.TheConstants.{TEXT_BYTES};
ghost use Rattle.sl_lexer.specs.Means.Answers.{IsAnswer, IsUnescaped};
ghost use Rattle.sl_lexer.specs.Means.Front as spec;
ghost use Rattle.sl_lexer.specs.declared.byte.First.TheVariants.{Quote, Apostrophe};

use crate::LexErr;
use crate::byte::begins;
use crate::front::Front;
use sl_base::{Items, Word};
use std::alloc::Global;

/// The byte that an escape writes, by the byte behind its backslash.
fn escape_of(byte: u8) -> Option<u8>
    ensures { result ≡ base.escape_of byte }
{
    match byte {
        b'n' => Some(b'\n'),
        b't' => Some(b'\t'),
        b'\\' | b'"' | b'\'' => Some(byte),
        _ => None,
    }
}

/// How many bytes a text at the front has, with both of its quotes, if its line closes it.
fn text_len(rest: &[u8]) -> Option<usize>
    ensures count { result ≡ spec.text_len rest.now }
    ensures within { IfSome result (λ n. (2 ≤ n) × (n ≤ length rest.now)) }
{
    let mut escaped = false;
    for i in 1..rest.len() {
        let byte = rest[i];
        if byte == b'\n' {
            return None;
        }
        if byte == b'"' && !escaped {
            return Some(i + 1);
        }
        escaped = byte == b'\\' && !escaped;
    }
    None
}

/// How many bytes the one byte or escape between single quotes has, if it is at the front.
fn one_len(rest: &[u8]) -> Option<usize>
    ensures count { result ≡ spec.one_len rest.now }
    ensures within { IfSome result (λ n. n ≤ length rest.now) }
{
    match rest {
        [b'\\', byte, ..] => escape_of(*byte).map(|_| 2),
        [] | [b'\\' | b'\'' | b'\n', ..] => None,
        _ => Some(1),
    }
}

/// How many bytes a byte or an escape between single quotes has, with both of its quotes, if it is at the front.
fn character_len(rest: &[u8]) -> Option<usize>
    requires { 0 < length rest.now }
    ensures count { result ≡ spec.character_len rest.now }
    ensures within { IfSome result (λ n. (2 ≤ n) × (n ≤ length rest.now)) }
{
    let behind = &rest[1..];
    let len = one_len(behind)?;
    if begins(b'\'', &behind[len..]) {
        Some(len + 2)
    } else {
        None
    }
}

/// The byte that a byte of a text writes, if it is no backslash that begins an escape.
fn byte_of(escaped: bool, byte: u8) -> Option<u8>
    ensures { result ≡ (if escaped then base.escape_of byte else Some byte) }
{
    if escaped { escape_of(byte) } else { Some(byte) }
}

/// The bytes that the bytes between the quotes of a text write; the text stands at an offset.
fn unescaped(alloc: Global, bytes: &[u8], from: usize) -> Result<Items<u8>, LexErr>
    requires { from + length bytes.now ≤ TEXT_BYTES }
    ensures { IsUnescaped from (base.unescaped false bytes.now) result }
{
    let mut written = Items::new(alloc);
    let mut escaped = false;
    for (i, byte) in bytes.iter().enumerate() {
        if *byte == b'\\' && !escaped {
            escaped = true;
            continue;
        }
        let Some(one) = byte_of(escaped, *byte) else {
            return Err(LexErr::BadByte {
                offset: (from + i) as u32,
            });
        };
        written.push(one)?;
        escaped = false;
    }
    Ok(written)
}

/// The text of so many bytes at the front of the rest, which begins with a quote.
fn text_at(alloc: Global, rest: &[u8], from: usize, len: Option<usize>) -> Result<Front, LexErr>
    requires within { IfSome len (λ n. (2 ≤ n) × (n ≤ length rest.now)) }
    requires short { from + length rest.now ≤ TEXT_BYTES }
    ensures { IsAnswer from rest.now (spec.front_in_quotes rest.now len) result }
{
    let Some(len) = len else {
        return Err(LexErr::OpenText {
            offset: from as u32,
        });
    };
    let bytes = unescaped(alloc, &rest[1..len - 1], from)?;
    Ok(Front {
        word: Some(Word::Text(bytes)),
        len,
    })
}

/// The text in double quotes at the front of the rest, which begins with one.
pub fn text_front(alloc: Global, rest: &[u8], from: usize) -> Result<Front, LexErr>
    requires { from + length rest.now ≤ TEXT_BYTES }
    ensures { IsAnswer from rest.now (spec.front_in Quote false rest.now) result }
{
    text_at(alloc, rest, from, text_len(rest))
}

/// The text in single quotes at the front of the rest, which begins with one.
pub fn character_front(alloc: Global, rest: &[u8], from: usize) -> Result<Front, LexErr>
    requires some { 0 < length rest.now }
    requires short { from + length rest.now ≤ TEXT_BYTES }
    ensures { IsAnswer from rest.now (spec.front_in Apostrophe false rest.now) result }
{
    text_at(alloc, rest, from, character_len(rest))
}
