//! A header that is read with its comments, which become the caption of the picture.

ghost use Rattle.sl_draw.specs.Captions.{HeaderIsTitled, comment_in};
ghost use Rattle.sl_io.specs.FaultCauses.{Rose};
ghost use Rattle.sl_reader.specs.HeaderBegins.{HeaderBreaks};
ghost use Rattle.sl_reader.specs.LineReads.{EndStands, Gives, no_line};
ghost use Rattle.sl_reader.specs.declared.reader.ReadError.TheVariants.{Failed as HasFailed};
ghost use Rattle.std.specs.Prelude.{Err, IfOk, List, OnErr, OnOk, [], ℕ, ◌++◌, ◌≡◌, ◌≤◌};

use sl_io::Source;
use sl_reader::{LineReader, Next, ReadError};
use sl_run::{Header, Refusal};
use sl_schedule::{Added, HeaderReader};
use sl_text::Bytes;
use std::alloc::{AllocError, Global};

/// Keeps the text of a line, if it is a comment.
fn keep_comment(alloc: Global, caption: &mut Vec<Bytes>, line: &[u8]) -> Result<(), AllocError>
    ensures { OnOk result (caption.new.items ≡ caption.old.items ++ comment_in line.now) }
{
    let Some((first, text)) = line.split_first() else {
        return Ok(());
    };
    if *first == b'#' {
        caption.push(Bytes::from_slice(alloc, text)?)?;
    }
    Ok(())
}

/// Reads a schedule's header as a replay does, and keeps the texts of its comments.
pub(crate) fn read_header<S: Source>(
    alloc: Global,
    source: &mut S,
    reader: &mut LineReader,
    caption: &mut Vec<Bytes>,
) -> Result<Result<Header, (u64, Refusal)>, ReadError>
    requires first { reader.old ≡ no_line }
    requires none { caption.old.items ≡ [] }
    ensures ok { IfOk result (HeaderIsTitled (S.left source.old) (S.left source.new) reader.new caption.new.items) }
    ensures stands { EndStands (S.left source.new) reader.new }
    ensures failed { result ≡ Err HasFailed → HeaderBreaks (S.left source.old) (S.left source.new) × Rose (S.faults source.old) (S.faults source.new) }
    ensures err { OnErr result ((all : List ℕ) × Gives (S.left source.old) (S.left source.new) [] all) }
    ensures later { S.faults source.old ≤ S.faults source.new }
{
    let mut header = HeaderReader::new(alloc);
    loop {
        match reader.read_line(source)? {
            Next::Refused(why) => return Ok(Err((reader.next_number(), why))),
            Next::End => return Ok(Err((reader.next_number(), Refusal::Syntax))),
            Next::Line => {}
        }
        let line = reader.line();
        keep_comment(alloc, caption, line.text)?;
        match header.add(line.text)? {
            Added::More => {}
            Added::Begun(begun) => return Ok(Ok(begun)),
            Added::Refused(why) => return Ok(Err((line.number, why))),
        }
    }
}
