ghost use Rattle.std.specs.Prelude.{◌≡◌, ◌+◌, ◌^◌, ◌<◌, ◌≤◌, length, take, drop, nat_lt, false, IsTrue, if◌then◌else◌};
ghost use Rattle.std.specs.List.{prefix_len};
ghost use Rattle.sl_base.specs.Bytes as bytes;
ghost use Rattle.sl_base.specs.Pieces as base;
ghost use Rattle.sl_base.specs.Pieces.{name_piece, lib_piece};
ghost use Rattle.sl_base.specs.declared.limits.TheConstants.{NAME_BYTES, TEXT_BYTES};
ghost use Rattle.sl_lexer.specs.Means.Answers.{answer_of};
ghost use Rattle.sl_lexer.specs.Means.Front as spec;
ghost use Rattle.sl_lexer.specs.declared.byte.First.TheVariants.{Letter};

use crate::LexErr;
use crate::byte::{is_letter, is_name_byte};
use crate::front::Front;
use crate::keyword::is_keyword;
use sl_base::limits::NAME_BYTES;
use sl_base::{Name, Word};

/// How many bytes `std::` has.
const STD_COLONS: usize = 5;

/// How many bytes of a name stand at the front.
pub fn name_len(rest: &[u8]) -> usize
    ensures count { result ≡ prefix_len bytes.is_name_byte rest.now }
    ensures within { result ≤ length rest.now }
{
    for (i, byte) in rest.iter().enumerate() {
        if !is_name_byte(*byte) {
            return i;
        }
    }
    rest.len()
}

/// Whether `std::` and a name, with nothing between, stand at the front.
fn begins_lib(rest: &[u8]) -> bool
    ensures { result ≡ spec.begins_lib rest.now }
{
    match rest {
        [b's', b't', b'd', b':', b':', first, ..] => is_letter(*first),
        _ => false,
    }
}

/// What a name says: a keyword is no name of the program.
fn word_of(name: Name) -> Word
    ensures { Some result ≡ base.word_of name_piece name }
{
    if is_keyword(name.as_slice()) {
        Word::Key(name)
    } else {
        Word::Name(name)
    }
}

/// The name at the front of a rest, which begins with a letter and stands at an offset.
fn name_at(rest: &[u8], at: usize) -> Result<Name, LexErr>
    requires letter { IsTrue (bytes.begins bytes.is_letter rest.now) }
    requires short { at + NAME_BYTES < 2 ^ 32 }
    ensures { result ≡ (if nat_lt NAME_BYTES (prefix_len bytes.is_name_byte rest.now)
        then Err (LexErr.BadByte (at + NAME_BYTES))
        else Ok (take (prefix_len bytes.is_name_byte rest.now) rest.now)) }
{
    let len = name_len(rest);
    if len > NAME_BYTES {
        return Err(LexErr::BadByte {
            offset: (at + NAME_BYTES) as u32,
        });
    }
    Ok(Name::new(&rest[..len]))
}

/// The name at the front of a rest, which begins with a letter and stands at an offset, as a piece.
fn name_front(rest: &[u8], from: usize) -> Result<Front, LexErr>
    requires letter { IsTrue (bytes.begins bytes.is_letter rest.now) }
    requires short { from ≤ TEXT_BYTES }
    ensures { result ≡ answer_of from rest.now
        (spec.judged name_piece (prefix_len bytes.is_name_byte rest.now) rest.now) }
{
    let name = name_at(rest, from)?;
    let len = name.as_slice().len();
    Ok(Front {
        word: Some(word_of(name)),
        len,
    })
}

/// `std::` and a name at the front of a rest, which stands at an offset, as a piece.
fn lib_front(rest: &[u8], from: usize) -> Result<Front, LexErr>
    requires lib { IsTrue (spec.begins_lib rest.now) }
    requires short { from ≤ TEXT_BYTES }
    ensures { result ≡ answer_of from rest.now
        (spec.judged lib_piece (5 + prefix_len bytes.is_name_byte (drop 5 rest.now)) rest.now) }
{
    let name = name_at(&rest[STD_COLONS..], from + STD_COLONS)?;
    let len = STD_COLONS + name.as_slice().len();
    Ok(Front {
        word: Some(Word::Lib(name)),
        len,
    })
}

/// The name or the lib at the front of a rest, which begins with a letter and stands at an offset.
pub fn letter_front(rest: &[u8], from: usize) -> Result<Front, LexErr>
    requires letter { IsTrue (bytes.begins bytes.is_letter rest.now) }
    requires short { from + length rest.now ≤ TEXT_BYTES }
    ensures { result ≡ answer_of from rest.now (spec.front_in Letter false rest.now) }
{
    if begins_lib(rest) {
        lib_front(rest, from)
    } else {
        name_front(rest, from)
    }
}
