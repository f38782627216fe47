//! Reading as many bytes as a buffer has.
ghost use Rattle.std.specs.Io.KnownBytes.{Consumes, IsAtEnd};
ghost use Rattle.std.specs.Prelude.{IfOk, IsTrue, false, ◌≡◌};
ghost use Rattle.sl_io.specs.FaultCauses.{HasCause};

use crate::faults::Failed;
use crate::source::Source;

/// Fills the buffer from the source; false where the source ended before, and after a fault nothing is known of the buffer.
pub fn fill<S: Source>(source: &mut S, buffer: &mut [u8]) -> Result<bool, Failed>
    ensures full { IfOk result (λ full. IsTrue full → Consumes (S.left source.old) (S.left source.new) buffer.new) }
    ensures ended { IfOk result (λ full. full ≡ false → IsAtEnd (S.left source.new)) }
    ensures cause { HasCause (S.faults source.old) (S.faults source.new) result }
{
    let mut at = 0;
    while at < buffer.len() {
        let n = source.read(&mut buffer[at..])?;
        if n == 0 {
            return Ok(false);
        }
        at += n;
    }
    Ok(true)
}
