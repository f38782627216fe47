//! Words and lines, written to the end of a text. After an `Err`, which is want of memory, the text is as it was.

ghost use Rattle.std.specs.Prelude.{length, vec_capacity, vec_len, [], OnErr, OnOk, ◌+◌, ◌++◌, ◌<◌, ◌∷◌, ◌≡◌};

use std::alloc::AllocError;

/// Writes a line and its line feed to the end of a text. After an `Err` the text is as it was.
pub fn push_line(out: &mut Vec<u8>, line: &[u8]) -> Result<(), AllocError>
    ensures ok { OnOk result (out.new.items ≡ out.old.items ++ line.now ++ 10 ∷ []) }
    ensures err { OnErr result (out.new.items ≡ out.old.items) }
    ensures full { OnErr result (vec_capacity out.old < vec_len out.old + length line.now + 1) }
{
    // With this room neither of the next two can fail.
    out.reserve(line.len() + 1)?;
    out.extend_from_slice(line)?;
    out.push(b'\n')?;
    Ok(())
}
