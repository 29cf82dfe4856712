ghost use Rattle.std.specs.Prelude.{◌≡◌, ◌≤◌, ℕ, take, OnOk, OnErr};
ghost use Rattle.std.specs.Io.KnownBytes.{Appends};
ghost use Rattle.sl_base.specs.Outside.{Rose};

use crate::{Failed, Sink};

/// Hands all the bytes to the sink. It takes no memory.
///
/// `Failed` comes only where a write failed; then the sink took a first part of the bytes.
pub fn write_all<K: Sink>(out: &mut K, bytes: &[u8]) -> Result<(), Failed>
    ensures all { OnOk result (Appends (K.taken out.old) (K.taken out.new) bytes.now) }
    ensures part { OnErr result ((n : ℕ) × Appends (K.taken out.old) (K.taken out.new) (take n bytes.now)) }
    ensures no_fall { K.faults out.old ≤ K.faults out.new }
    ensures steady { OnOk result (K.faults out.new ≡ K.faults out.old) }
    ensures risen { OnErr result (Rose (K.faults out.old) (K.faults out.new)) }
{
    let mut done = 0;
    while done < bytes.len() {
        done += out.write(&bytes[done..])?;
    }
    Ok(())
}
