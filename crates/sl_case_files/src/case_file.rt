//! Reads a case file: one case after another, each of parts with a heading.
//!
//! ```text
//! %% case an iterator at the end
//! %% words check a.cpp
//! %% file a.cpp
//! int main() {
//!   std::vector<int> v;
//!   auto it = v.begin();
//!   int x = *it;
//! }
//! %% status 1
//! %% out
//! a.cpp:4:11: end iterator in *: it
//! a.cpp: warnings: 1
//! ```
//!
//! To a heading belong the lines up to the next one; with `bytes N` behind it, as in `%% file a.cpp bytes 4`, exactly N
//! bytes and a line feed. In place of `words`, `status` and `out` a case with one file has one of `tokens`, `tree`,
//! `groups`, `grammar` and `refusal`, and below it what is due.
ghost use Rattle.std.specs.Prelude.{◌≡◌};
ghost use Rattle.sl_case_files.specs.declared.case_file.CaseFileErr.TheVariants.{Memory};

use crate::case::{Asked, Case, SourceFile, TextKind};
use crate::section::{Heading, Section, Sections};
use std::alloc::{AllocError, Global};
use thiserror::Error;

/// What may be wrong in a case file.
#[derive(Clone, Copy, Debug, Error)]
pub enum Wrong {
    #[error("a heading begins with `%% `")]
    NoHeading,
    #[error("a heading is text")]
    NoText,
    #[error("no such heading")]
    UnknownHeading,
    #[error("no number that may stand there")]
    BadNumber,
    #[error("fewer bytes follow")]
    FewBytes,
    #[error("no line feed is behind so many bytes")]
    MoreBytes,
    #[error("it stands before the first case")]
    NoCase,
    #[error("the case has another already")]
    Twice,
    #[error("lines that belong to nothing follow")]
    Stray,
    #[error("a case has a name")]
    NoName,
    #[error("a case has words, status and out, or one file and one of tokens, tree, groups, grammar, refusal")]
    NoQuestion,
}

/// Why a case file has no cases.
#[derive(Clone, Copy, Debug, Error)]
pub enum CaseFileErr {
    #[error("out of memory")]
    Memory,
    #[error("line {line}: {wrong}")]
    Wrong { line: usize, wrong: Wrong },
}

impl From<AllocError> for CaseFileErr {
    ghost from_gives = { λ _ e. e ≡ Memory };

    fn from(_: AllocError) -> Self {
        CaseFileErr::Memory
    }
}

/// The cases of a file.
pub fn cases_in(alloc: Global, text: &[u8]) -> Result<Vec<Case<'_>>, CaseFileErr> {
    let mut cases = Vec::new(alloc);
    let mut open: Option<Draft> = None;
    for section in Sections::new(text) {
        let section = section?;
        match (section.heading, open.take()) {
            (Heading::Case(name), before) => {
                if let Some(draft) = before {
                    cases.push(draft.finish()?).map_err(AllocError::from)?;
                }
                open = Some(Draft::new(alloc, &section, name)?);
            }
            (_, Some(draft)) => open = Some(draft.with(&section)?),
            (_, None) => return Err(wrong_at(section.line, Wrong::NoCase)),
        }
    }
    if let Some(draft) = open {
        cases.push(draft.finish()?).map_err(AllocError::from)?;
    }
    Ok(cases)
}

fn wrong_at(line: usize, wrong: Wrong) -> CaseFileErr {
    CaseFileErr::Wrong { line, wrong }
}

// What a case has said so far.
#[derive(Drop)]
struct Draft<'a> {
    line: usize,
    name: &'a str,
    files: Vec<SourceFile<'a>>,
    words: Option<&'a str>,
    status: Option<u8>,
    out: Option<&'a [u8]>,
    text: Option<(TextKind, &'a [u8])>,
}

impl<'a> Draft<'a> {
    // A case that has only its name.
    fn new(alloc: Global, section: &Section<'a>, name: &'a str) -> Result<Draft<'a>, CaseFileErr> {
        if name.is_empty() {
            return Err(wrong_at(section.line, Wrong::NoName));
        }
        let draft = Draft {
            line: section.line,
            name,
            files: Vec::new(alloc),
            words: None,
            status: None,
            out: None,
            text: None,
        };
        empty_body(section)?;
        Ok(draft)
    }

    // The case with what a section adds to it.
    fn with(mut self, section: &Section<'a>) -> Result<Draft<'a>, CaseFileErr> {
        let is_second = match section.heading {
            Heading::Case(_) => true,
            Heading::Words(words) => {
                empty_body(section)?;
                self.words.replace(words).is_some()
            }
            Heading::Status(status) => {
                empty_body(section)?;
                self.status.replace(status).is_some()
            }
            Heading::File(name) => {
                let file = SourceFile {
                    name,
                    bytes: section.body,
                };
                self.files.push(file).map_err(AllocError::from)?;
                false
            }
            Heading::Out => self.out.replace(section.body).is_some(),
            Heading::Text(kind) => self.text.replace((kind, section.body)).is_some(),
        };
        if is_second {
            return Err(wrong_at(section.line, Wrong::Twice));
        }
        Ok(self)
    }

    // The case that this is, if it is one.
    fn finish(self) -> Result<Case<'a>, CaseFileErr> {
        let Draft {
            line,
            name,
            files,
            words,
            status,
            out,
            text,
        } = self;
        let asked = match (words, status, out, text) {
            (Some(words), Some(status), Some(out), None) => Asked::Command {
                words,
                files,
                status,
                out,
            },
            (None, None, None, Some((kind, due))) => match files.as_slice() {
                [file] => Asked::Text {
                    kind,
                    file: *file,
                    due,
                },
                _ => return Err(wrong_at(line, Wrong::NoQuestion)),
            },
            _ => return Err(wrong_at(line, Wrong::NoQuestion)),
        };
        Ok(Case { line, name, asked })
    }
}

// Refuses lines behind a heading to which none belong.
fn empty_body(section: &Section) -> Result<(), CaseFileErr> {
    if section.body.is_empty() {
        Ok(())
    } else {
        Err(wrong_at(section.line, Wrong::Stray))
    }
}
