//! The lines that refuse a text.
ghost use Rattle.std.specs.Prelude.{◌≡◌, IfOk};
ghost use Rattle.sl_model.specs.Reports.Refusals.{too_long_line};
ghost use Rattle.sl_model.specs.Reports.Texts.{refusal_line};

use sl_base::{Items, Place};
use std::alloc::{AllocError, Global};

/// The line that refuses the text of a file at a place, and says why.
pub fn refusal_line(
    alloc: Global,
    file: &str,
    place: Place,
    why: &str,
) -> Result<Items<u8>, AllocError>
    ensures { IfOk result (λ line. line ≡ refusal_line file.now place why.now) }
{
    let line = place.line;
    let col = place.col;
    let text = format!(in alloc; "{file}:{line}:{col}: refused: {why}\n")?;
    Items::from_slice(alloc, text.as_bytes())
}

/// The line that refuses the text of a file that is too long.
pub fn too_long_line(alloc: Global, file: &str) -> Result<Items<u8>, AllocError>
    ensures { IfOk result (λ line. line ≡ too_long_line file.now) }
{
    let text = format!(in alloc; "{file}: refused: longer than 1048576 bytes\n")?;
    Items::from_slice(alloc, text.as_bytes())
}
