//! The answer to a text that is parsed: a report on it, or that it isn't built yet.
ghost use Rattle.std.specs.Prelude.{◌≡◌, List, IfOk};
ghost use Rattle.sl_syntax.specs.TreeView.{program_of};
ghost use Rattle.sl_model.specs.Reports.Covers.{Warning as WarningValue};
ghost use Rattle.sl_model.specs.Reports.Texts.{report_text};
ghost use Rattle.sl_tool.specs.Answers.{AnswerTo, IsReport, status_of};
ghost use Rattle.sl_tool.specs.Subset.{IsOfText};
ghost use Rattle.sl_model.specs.Reports.Refusals.{IsParsed};

use crate::analysis::warnings_in;
use crate::phases::Parsed;
use crate::phases::program::stop_place;
use crate::reading::read::Read;
use crate::reading::read_text;
use crate::refusal::refusal_line;
use crate::reporting::report_on;
use crate::status::Status;
use sl_base::Items;
use sl_syntax::subset::Text;
use sl_warnings::{Report, render};
use std::alloc::{AllocError, Global};

/// The answer to the text of a file, which is parsed.
pub fn check(
    alloc: Global,
    file: &str,
    text: &[u8],
    parsed: &Parsed,
) -> Result<(Status, Items<u8>), AllocError>
    requires { IsParsed text.now parsed.now.tokens (program_of parsed.now.program) }
    ensures { IfOk result (λ a. AnswerTo file.now text.now a.0 a.1) }
{
    let tokens = parsed.tokens.as_slice();
    match read_text(alloc, tokens)? {
        Read::Whole(p) => report(alloc, file, &p),
        Read::Stops(k) => {
            let line = refusal_line(alloc, file, stop_place(text, tokens, k), "not built")?;
            Ok((Status::Refused, line))
        }
    }
}

// The report on the text of the file that this is in numbers.
fn report(alloc: Global, file: &str, p: &Text) -> Result<(Status, Items<u8>), AllocError>
    requires { IsOfText p.now }
    ensures { IfOk result (λ a. (r : List WarningValue) ×
        IsReport p.now r × (a.0 ≡ status_of r) × (a.1 ≡ report_text file.now p.now.sites r)) }
{
    let warnings = warnings_in(alloc, p.stmts.as_slice())?;
    let report = report_on(alloc, p.names.as_slice(), warnings.as_slice())?;
    let text = render(alloc, file, p.sites.as_slice(), &report)?;
    Ok((status_of(&report), text))
}

// A text is passed where there is no warning.
fn status_of(report: &Report) -> Status
    ensures { result ≡ status_of report.now }
{
    match report.len() {
        0 => Status::Passed,
        _ => Status::Warned,
    }
}
