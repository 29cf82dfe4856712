ghost use Rattle.std.specs.Prelude.{◌≡◌, ◌≤◌, IfOk, OnOk, OnErr, IsErrOf};
ghost use Rattle.sl_base.specs.Outside.{Rose, NoFault, IsRead, IsReadInPart, OthersKept};
ghost use Rattle.sl_base.specs.declared.outside.reading.ReadErr.TheVariants.{Memory};

use crate::Files;
use std::alloc::{AllocError, Global};
use thiserror::Error;

/// Why a file was not read.
#[derive(Clone, Copy, Debug, Error)]
pub enum ReadErr {
    #[error("out of memory")]
    Memory,
    #[error("a read failed")]
    Failed,
}

impl From<AllocError> for ReadErr {
    ghost from_gives = { λ _ e. e ≡ Memory };

    fn from(_: AllocError) -> Self {
        ReadErr::Memory
    }
}

const BLOCK: usize = 4096;

/// Reads a name until its end, or until one byte more than the limit is held, and never more than that.
///
/// `ReadErr::Memory` comes where memory runs out, `ReadErr::Failed` where a read failed; then a first part
/// of the bytes has left. Each turn takes at least one byte or ends.
pub fn read_all<F: Files>(
    alloc: Global,
    files: &mut F,
    name: &str,
    limit: usize,
) -> Result<Vec<u8>, ReadErr>
    ensures read { IfOk result (λ v. IsRead limit v.items (F.left files.old name.now) (F.left files.new name.now)) }
    ensures part { OnErr result (IsReadInPart limit (F.left files.old name.now) (F.left files.new name.now)) }
    ensures others { OthersKept (F.left files.old) (F.left files.new) name.now }
    ensures no_fall { F.faults files.old ≤ F.faults files.new }
    ensures steady { OnOk result
        (NoFault (F.faults files.old) (F.faults files.new) (F.blamed files.old) (F.blamed files.new)) }
    ensures steady_memory { IsErrOf result ReadErr.Memory →
        NoFault (F.faults files.old) (F.faults files.new) (F.blamed files.old) (F.blamed files.new) }
    ensures risen { IsErrOf result ReadErr.Failed → Rose (F.faults files.old) (F.faults files.new) }
    ensures blame { IsErrOf result ReadErr.Failed → F.blamed files.new name.now }
{
    let mut held = Vec::new(alloc);
    let mut block = [0u8; BLOCK];
    while held.len() <= limit {
        let room = (limit - held.len()).min(BLOCK - 1) + 1;
        let count = match files.read(name, &mut block[..room]) {
            Ok(count) => count,
            Err(_) => return Err(ReadErr::Failed),
        };
        if count == 0 {
            return Ok(held);
        }
        held.extend_from_slice(&block[..count])?;
    }
    Ok(held)
}
