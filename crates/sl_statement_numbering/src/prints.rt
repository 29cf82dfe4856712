//! Prints.
ghost use Rattle.std.specs.Prelude.{◌≡◌, [], IfOk, OnOk, map};
ghost use Rattle.sl_syntax.specs.TreeView.{out_of};
ghost use Rattle.sl_syntax.specs.TypedView as view;
ghost use Rattle.sl_typing.specs.Flow as flow;
ghost use Rattle.sl_typing.specs.StatementFaults as faults;
ghost use Rattle.sl_typing.specs.StatementNumbering as spec;
ghost use Rattle.sl_number_limits.specs.Fits.{Fits};

use crate::values::expression;
use sl_base::Items;
use sl_contexts::Known;
use sl_syntax::Out;
use sl_syntax::typed::Printed;
use std::alloc::{AllocError, Global};

// An item of a print; then is known what is known behind it.
fn printed(alloc: Global, known: &mut Known, out: &Out) -> Result<Printed, AllocError>
    requires fits { Fits known.old }
    requires kept { faults.out_faults known.old (out_of out.now) ≡ [] }
    ensures typed { IfOk result (λ x. view.printed_of x ≡ spec.typed_out known.old (out_of out.now)) }
    ensures behind { OnOk result (known.new ≡ flow.behind_out known.old (out_of out.now)) }
{
    match out {
        Out::Text { text, .. } => {
            let copied = Items::from_slice(alloc, text.as_slice())?;
            Ok(Printed::Text(copied))
        }
        Out::EndLine { .. } => Ok(Printed::EndLine),
        Out::Value(e) => {
            let value = expression(alloc, known, e)?;
            Ok(Printed::Number(value))
        }
    }
}

/// The items of a print; then is known what is known behind them.
pub fn prints(alloc: Global, known: &mut Known, outs: &[Out]) -> Result<Vec<Printed>, AllocError>
    requires fits { Fits known.old }
    requires kept { faults.outs_faults known.old (map out_of outs.now) ≡ [] }
    ensures typed { IfOk result (λ v. map view.printed_of v.items ≡ spec.typed_outs known.old (map out_of outs.now)) }
    ensures behind { OnOk result (known.new ≡ flow.behind_outs known.old (map out_of outs.now)) }
{
    let mut done = Vec::new(alloc);
    for out in outs {
        let item = printed(alloc, known, out)?;
        done.push(item)?;
    }
    Ok(done)
}
