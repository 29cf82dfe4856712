ghost use Rattle.std.specs.Prelude.{◌≡◌, IfOk};
ghost use Rattle.sl_syntax.specs.Typed.{Typed};
ghost use Rattle.sl_model.specs.Reports.EndText.{end_text};
ghost use Rattle.sl_model.specs.Runs.Ends.{Finish as Run};
ghost use Rattle.sl_model.specs.Runs.EndView.{IsFinish};

use crate::end_line::push_end;
use crate::output::push_output;
use sl_base::{Items, Place};
use sl_model::Finish;
use std::alloc::{AllocError, Global};

/// The text of the end of a run, in a text in which the site with number i has the i-th of these places: the output
/// that is kept, a line with the count of the bytes that are lost where some are, and a line that says how the run
/// ended.
pub fn end_text(alloc: Global, sites: &[Place], finish: &Finish) -> Result<Items<u8>, AllocError>
    ensures { IfOk result (λ bytes. (p : Typed) (f : Run) → p.sites ≡ sites.now → IsFinish p.names finish.now f →
        bytes ≡ end_text p f) }
{
    let mut out = Items::new(alloc);
    push_output(alloc, &mut out, &finish.output)?;
    push_end(alloc, &mut out, sites, &finish.end)?;
    Ok(out)
}
