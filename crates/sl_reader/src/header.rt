//! The header of a schedule that is read from a source.

ghost use Rattle.sl_reader.specs.HeaderBegins.{HeaderBreaks, HeaderIsRead};
ghost use Rattle.sl_reader.specs.LineReads.{EndStands, Gives, no_line};
ghost use Rattle.sl_reader.specs.declared.reader.ReadError.TheVariants.{Failed as HasFailed};
ghost use Rattle.sl_io.specs.FaultCauses.{Rose};
ghost use Rattle.std.specs.Prelude.{Err, IfOk, List, OnErr, [], ℕ, ◌≡◌, ◌≤◌};

use crate::reader::{LineReader, Next, ReadError};
use sl_io::Source;
use sl_run::{Header, Refusal};
use sl_schedule::{Added, HeaderReader};
use std::alloc::Global;

/// Reads a schedule's header from the source's first line on, up to `begin`; or the number of the line that is refused, and why: an end
/// before `begin` is `Syntax`, one past the last line. Nothing is read behind the piece in which that line ends.
pub fn read_header<S: Source>(
    alloc: Global,
    source: &mut S,
    reader: &mut LineReader,
) -> Result<Result<Header, (u64, Refusal)>, ReadError>
    requires { reader.old ≡ no_line }
    ensures ok { IfOk result (HeaderIsRead (S.left source.old) (S.left source.new) reader.new) }
    ensures stands { EndStands (S.left source.new) reader.new }
    ensures failed { result ≡ Err HasFailed → HeaderBreaks (S.left source.old) (S.left source.new) × Rose (S.faults source.old) (S.faults source.new) }
    ensures err { OnErr result ((all : List ℕ) × Gives (S.left source.old) (S.left source.new) [] all) }
    ensures later { S.faults source.old ≤ S.faults source.new }
{
    let mut header = HeaderReader::new(alloc);
    loop {
        match reader.read_line(source)? {
            Next::Refused(why) => return Ok(Err((reader.next_number(), why))),
            Next::End => return Ok(Err((reader.next_number(), Refusal::Syntax))),
            Next::Line => {}
        }
        let line = reader.line();
        match header.add(line.text)? {
            Added::More => {}
            Added::Begun(begun) => return Ok(Ok(begun)),
            Added::Refused(why) => return Ok(Err((line.number, why))),
        }
    }
}
