//! The text of what a run wrote.
ghost use Rattle.std.specs.Prelude.{◌≡◌, ◌++◌, OnOk};
ghost use Rattle.std.specs.Io.BufRead.{ends_with_byte};
ghost use Rattle.sl_model.specs.Reports.EndText.{with_line_end, lost_line};

use sl_base::Items;
use sl_model::Output;
use std::alloc::{AllocError, Global};

// What is kept of an output, and the line of the bytes that are lost.
pub fn push_output(alloc: Global, out: &mut Items<u8>, output: &Output) -> Result<(), AllocError>
    ensures { OnOk result (out.new ≡ out.old ++ (with_line_end output.now.bytes ++ lost_line output.now.lost)) }
{
    push_kept(out, output.bytes.as_slice())?;
    push_lost(alloc, out, output.lost)?;
    Ok(())
}

// Bytes, and a line feed behind them where their last line isn't ended.
fn push_kept(out: &mut Items<u8>, bytes: &[u8]) -> Result<(), AllocError>
    ensures { OnOk result (out.new ≡ out.old ++ with_line_end bytes.now) }
{
    if bytes.len() == 0 {
        return Ok(());
    }
    out.extend_from_slice(bytes)?;
    if !ends_line(bytes) {
        out.push(b'\n')?;
    }
    Ok(())
}

// Whether the last byte is a line feed.
fn ends_line(bytes: &[u8]) -> bool
    ensures { result ≡ ends_with_byte 10 bytes.now }
{
    let len = bytes.len();
    if len > 0 {
        bytes[len - 1] == b'\n'
    } else {
        false
    }
}

// The line of the bytes that are lost.
fn push_lost(alloc: Global, out: &mut Items<u8>, lost: u64) -> Result<(), AllocError>
    ensures { OnOk result (out.new ≡ out.old ++ lost_line lost) }
{
    if lost == 0 {
        return Ok(());
    }
    out.extend_from_slice(b"run: output cut, ")?;
    out.extend_from_slice(format!(in alloc; "{lost}")?.as_bytes())?;
    out.extend_from_slice(b" bytes lost\n")?;
    Ok(())
}
