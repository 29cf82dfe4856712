//! The parts of a case file: each is a heading, a line that begins with `%%`, and what belongs to it.
ghost use Rattle.std.specs.Prelude.{◌+◌, ◌<◌, ◌≤◌, length, IfOk};
ghost use Rattle.std.specs.Iterator.{at_most};

use crate::case::TextKind;
use crate::case_file::{CaseFileErr, Wrong};
use std::str::from_utf8;

/// What a heading says.
#[derive(Clone, Copy)]
pub enum Heading<'a> {
    /// `case NAME`
    Case(&'a str),
    /// `words WORD WORD ..`
    Words(&'a str),
    /// `file NAME`
    File(&'a str),
    /// `status NUMBER`
    Status(u8),
    /// `out`
    Out,
    /// `tokens`, `tree`, `groups`, `grammar` or `refusal`
    Text(TextKind),
}

/// A heading, its line, and what belongs to it: the lines up to the next heading, or with `bytes N` so many bytes.
#[derive(Clone, Copy)]
pub struct Section<'a> {
    pub line: usize,
    pub heading: Heading<'a>,
    pub body: &'a [u8],
}

/// The sections of a case file in order, up to one that is wrong.
#[derive(Drop)]
pub struct Sections<'a> {
    left: &'a [u8],
    line: usize,
}

impl<'a> Sections<'a> {
    pub fn new(text: &'a [u8]) -> Sections<'a> {
        Sections {
            left: text,
            line: 1,
        }
    }
}

impl<'a> Iterator for Sections<'a> {
    type Item = Result<Section<'a>, CaseFileErr>;

    ghost remaining = { λ s. at_most (length s.left.now) };

    fn next(&mut self) -> Option<Result<Section<'a>, CaseFileErr>> {
        if self.left.is_empty() {
            return None;
        }
        let line = self.line;
        match cut_section(self.left) {
            Ok(
                Cut {
                    heading,
                    body,
                    rest,
                },
            ) => {
                let front = &self.left[..self.left.len() - rest.len()];
                self.line = line.saturating_add(line_feeds_in(front));
                self.left = rest;
                Some(Ok(Section {
                    line,
                    heading,
                    body,
                }))
            }
            Err(wrong) => {
                self.left = &[];
                Some(Err(CaseFileErr::Wrong { line, wrong }))
            }
        }
    }
}

fn line_feeds_in(text: &[u8]) -> usize {
    text.iter().filter(|byte| **byte == b'\n').count()
}

// What a section says, and the text behind it.
#[derive(Clone, Copy)]
struct Cut<'a> {
    heading: Heading<'a>,
    body: &'a [u8],
    rest: &'a [u8],
}

// Cuts off the first section.
fn cut_section(text: &[u8]) -> Result<Cut<'_>, Wrong>
    requires { 0 < length text.now }
    ensures { IfOk result (λ cut. length cut.rest.now < length text.now) }
{
    let (line, behind) = cut_line(text);
    let line = from_utf8(line).map_err(|_| Wrong::NoText)?;
    let (heading, count) = heading_of(line)?;
    let (body, rest) = cut_body(behind, count)?;
    Ok(Cut {
        heading,
        body,
        rest,
    })
}

// The first line, and the text behind its line feed.
fn cut_line(text: &[u8]) -> (&[u8], &[u8])
    requires { 0 < length text.now }
    ensures { length result.1.now < length text.now }
{
    match text.iter().position(|byte| *byte == b'\n') {
        Some(end) => (&text[..end], &text[end + 1..]),
        None => (text, &text[text.len()..]),
    }
}

// What belongs to a heading, and the text behind that.
fn cut_body(text: &[u8], count: Option<usize>) -> Result<(&[u8], &[u8]), Wrong>
    ensures { IfOk result (λ cut. length cut.1.now ≤ length text.now) }
{
    match count {
        None => Ok(text.split_at(length_of_lines(text))),
        Some(count) => {
            let Some((body, behind)) = text.split_at_checked(count) else {
                return Err(Wrong::FewBytes);
            };
            match behind {
                [b'\n', rest @ ..] => Ok((body, rest)),
                _ => Err(Wrong::MoreBytes),
            }
        }
    }
}

// How many bytes stand before the next heading.
fn length_of_lines(text: &[u8]) -> usize
    ensures { result ≤ length text.now }
{
    if text.starts_with(b"%%") {
        return 0;
    }
    match text.windows(3).position(|three| three.starts_with(b"\n%%")) {
        Some(end) => end.saturating_add(1).min(text.len()),
        None => text.len(),
    }
}

// What a heading says, and the number of bytes that it gives.
fn heading_of(line: &str) -> Result<(Heading<'_>, Option<usize>), Wrong> {
    let text = line.strip_prefix("%% ").ok_or(Wrong::NoHeading)?;
    let (kind, rest) = text.split_once(' ').unwrap_or((text, ""));
    let heading = match kind {
        "case" => return Ok((Heading::Case(rest), None)),
        "words" => return Ok((Heading::Words(rest), None)),
        "status" => {
            let status = rest.parse::<u8>().map_err(|_| Wrong::BadNumber)?;
            return Ok((Heading::Status(status), None));
        }
        "file" => {
            let (name, rest) = rest.split_once(' ').unwrap_or((rest, ""));
            return Ok((Heading::File(name), count_in(rest)?));
        }
        "out" => Heading::Out,
        "tokens" => Heading::Text(TextKind::Tokens),
        "tree" => Heading::Text(TextKind::Tree),
        "groups" => Heading::Text(TextKind::Groups),
        "grammar" => Heading::Text(TextKind::Grammar),
        "refusal" => Heading::Text(TextKind::Refusal),
        _ => return Err(Wrong::UnknownHeading),
    };
    Ok((heading, count_in(rest)?))
}

// The number of `bytes N`, and none of nothing.
fn count_in(text: &str) -> Result<Option<usize>, Wrong> {
    if text.is_empty() {
        return Ok(None);
    }
    let number = text.strip_prefix("bytes ").ok_or(Wrong::BadNumber)?;
    match number.parse::<usize>() {
        Ok(count) => Ok(Some(count)),
        Err(_) => Err(Wrong::BadNumber),
    }
}
