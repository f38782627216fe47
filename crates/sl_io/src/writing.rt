//! Writing bytes to a sink, all of them or none after a fault.
ghost use Rattle.std.specs.Io.KnownBytes.{Appends};
ghost use Rattle.std.specs.Prelude.{OnOk, length, take, ℕ, ◌≤◌};
ghost use Rattle.sl_io.specs.FaultCauses.{HasCause};

use crate::faults::Failed;
use crate::sink::Sink;

/// Writes the bytes to their end. What the sink has taken is a front of them in any case, and all of them after an Ok.
pub fn write_all<K: Sink>(sink: &mut K, bytes: &[u8]) -> Result<(), Failed>
    ensures all { OnOk result (Appends (K.taken sink.old) (K.taken sink.new) bytes.now) }
    ensures front { (n : ℕ) × (n ≤ length bytes.now) × Appends (K.taken sink.old) (K.taken sink.new) (take n bytes.now) }
    ensures cause { HasCause (K.faults sink.old) (K.faults sink.new) result }
{
    let mut at = 0;
    while at < bytes.len() {
        at += sink.write(&bytes[at..])?;
    }
    Ok(())
}
