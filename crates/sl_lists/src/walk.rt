//! Reading a list, byte by byte.
ghost use Rattle.std.specs.Prelude.{◌≡◌, ◌++◌, ℕ, length, IfOk, IfErr, Some, None};
ghost use Rattle.sl_base.specs.Bytes as bytes;
ghost use Rattle.sl_model.specs.Reports.Lists.{ListOf, BadAt};
ghost use Rattle.sl_lists.specs.declared.error.ListErr.TheVariants.{Bad};
ghost use Rattle.sl_lists.specs.Means.Numbers.{number_in};
ghost use Rattle.sl_lists.specs.Means.Steps as steps;

use crate::error::ListErr;
use crate::kind::Kind;
use crate::word::Word;
use sl_base::Items;
use std::alloc::Global;

/// Bytes of a list, at most.
const LIST_BYTES: usize = 4_194_304;

/// Numbers of a list, at most.
const LIST_NUMBERS: usize = 100_000;

// The numbers of the list that the bytes hold.
pub fn numbers_of(alloc: Global, kind: Kind, bytes: &[u8]) -> Result<Items<i64>, ListErr>
    ensures list { IfOk result (ListOf (number_in kind) bytes.now) }
    ensures fault { IfErr result (λ e. (offset : ℕ) → e ≡ Bad offset → BadAt (number_in kind) bytes.now offset) }
{
    let mut numbers = Items::new(alloc);
    let mut word = Word::Blank;
    for at in 0..bytes.len() {
        word = step(kind, &mut numbers, word, at, bytes[at])?;
    }
    close(&mut numbers, word, bytes.len())?;
    Ok(numbers)
}

// The word after the byte at an offset, and the numbers.
fn step(
    kind: Kind,
    numbers: &mut Items<i64>,
    word: Word,
    at: usize,
    byte: u8,
) -> Result<Word, ListErr>
    ensures read { IfOk result (λ next. steps.stepped kind at numbers.old word byte ≡ Some (numbers.new, next)) }
    ensures fault { IfErr result (λ e. (offset : ℕ) → e ≡ Bad offset →
        (offset ≡ at) × (steps.stepped kind at numbers.old word byte ≡ None)) }
{
    if at >= LIST_BYTES {
        return Err(ListErr::Bad { offset: at });
    }
    if is_blank(byte) {
        close(numbers, word, at)?;
        return Ok(Word::Blank);
    }
    word_after(kind, at, numbers.len(), word, byte).ok_or(ListErr::Bad { offset: at })
}

// Puts the number of a word that ends at an offset to the numbers.
fn close(numbers: &mut Items<i64>, word: Word, at: usize) -> Result<(), ListErr>
    ensures closed { IfOk result (λ _. steps.with_word numbers.old word ≡ Some numbers.new) }
    ensures fault { IfErr result (λ e. (offset : ℕ) → e ≡ Bad offset →
        (offset ≡ at) × (steps.with_word numbers.old word ≡ None)) }
{
    match word {
        Word::Blank => {}
        Word::Minus => return Err(ListErr::Bad { offset: at }),
        Word::Digits { negative, value } => numbers.push(signed(negative, value))?,
    }
    Ok(())
}

fn signed(negative: bool, value: u32) -> i64
    ensures { result ≡ steps.signed negative value }
{
    if negative {
        -i64::from(value)
    } else {
        i64::from(value)
    }
}

// The word after a byte that is no blank, where there are so many numbers before it. None is for one that can't be
// completed to a word of a list.
fn word_after(kind: Kind, at: usize, count: usize, word: Word, byte: u8) -> Option<Word>
    ensures { result ≡ steps.word_after kind at count word byte }
{
    match word {
        Word::Blank => first_after(kind, at, count, byte),
        Word::Minus => digit_after(kind, true, 0, byte),
        Word::Digits { negative, value } => digit_after(kind, negative, value, byte),
    }
}

// The word that a byte begins.
fn first_after(kind: Kind, at: usize, count: usize, byte: u8) -> Option<Word>
    ensures { result ≡ steps.first_after kind at count byte }
{
    if count < LIST_NUMBERS {
        begun(kind, at, byte)
    } else {
        None
    }
}

fn begun(kind: Kind, at: usize, byte: u8) -> Option<Word>
    ensures { result ≡ steps.begun kind at byte }
{
    if kind.is_signed() & (byte == b'-') {
        minus_at(at)
    } else {
        digit_after(kind, false, 0, byte)
    }
}

// A `-` needs a byte more.
fn minus_at(at: usize) -> Option<Word>
    ensures { result ≡ steps.minus_at at }
{
    if at < LIST_BYTES - 1 {
        Some(Word::Minus)
    } else {
        None
    }
}

// Digits with one more.
fn digit_after(kind: Kind, negative: bool, value: u32, byte: u8) -> Option<Word>
    ensures { result ≡ steps.digit_after kind negative value byte }
{
    if is_digit(byte) {
        let longer = u64::from(value) * 10 + u64::from(byte - b'0');
        digits_of(kind, negative, longer)
    } else {
        None
    }
}

// Digits that write a number, where it isn't too great.
fn digits_of(kind: Kind, negative: bool, value: u64) -> Option<Word>
    ensures { result ≡ steps.digits_of kind negative value }
{
    if value <= u64::from(kind.greatest(negative)) {
        Some(Word::Digits {
            negative,
            value: value as u32,
        })
    } else {
        None
    }
}

fn is_digit(byte: u8) -> bool
    ensures { result ≡ bytes.is_digit byte }
{
    byte.is_ascii_digit()
}

// A space, a tab, a carriage return or a line feed.
fn is_blank(byte: u8) -> bool
    ensures { result ≡ bytes.is_blank byte }
{
    byte == b' ' || byte == b'\t' || byte == b'\r' || byte == b'\n'
}
