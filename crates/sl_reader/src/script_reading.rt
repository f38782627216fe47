//! The next line of a script that says something.

ghost use Rattle.sl_reader.specs.ScriptReading.{Answers, AnswersRefused, Comes, Passes, ScriptLine, came_of};
ghost use Rattle.sl_reader.specs.LineReads.{EndStands, ReaderState};
ghost use Rattle.std.specs.Prelude.{List, Option, ℕ, ◌≡◌, ◌≤◌};

use crate::{LineReader, LiveLine, LiveRead, Next, NoLine, ReadError, Scope, live_line};
use sl_io::Source;
use sl_run::Refusal;
use std::alloc::Global;

/// Why a script ended, and where.
#[derive(Clone, Copy)]
pub enum ScriptEnd {
    /// The source was read to its end.
    End,
    /// The line of this number is refused.
    Refused { number: u64, why: Refusal },
    /// A read of the source failed.
    ReadFault,
    /// There was no memory for a line.
    NoMemory,
}

/// What came next in a script: a line that says something, or that there is none.
#[derive(Drop)]
pub(crate) enum Came {
    /// The line of this number says this, or is refused for what it says.
    Says {
        number: u64,
        said: Result<LiveLine, Refusal>,
    },
    /// The source has ended: no line is left.
    End,
    /// The line of this number is refused before it is read.
    Refused {
        number: u64,
        why: Refusal,
    },
}

/// What a line says, as what came next.
fn came_of(read: LiveRead) -> Came
    ensures { result ≡ came_of read }
{
    let (number, said) = read;
    Came::Says { number, said }
}

/// Reads up to the next line that says something.
pub(crate) fn read_on<S: Source>(
    alloc: Global,
    source: &mut S,
    reader: &mut LineReader,
    scope: &Scope,
) -> Result<Came, ReadError>
    requires { EndStands (S.left source.old) reader.old }
    ensures comes { (first : Option (List ℕ)) (began : ReaderState) (told : List ScriptLine) → Passes scope.now first (S.left source.old) began reader.old told
        → Comes scope.now first (S.left source.new) (S.faults source.old) (S.faults source.new) began reader.new told result }
    ensures stands { EndStands (S.left source.new) reader.new }
    ensures later { S.faults source.old ≤ S.faults source.new }
{
    loop {
        match reader.read_line(source) {
            Err(error) => return Err(error),
            Ok(Next::End) => return Ok(Came::End),
            Ok(Next::Refused(why)) => {
                let number = reader.next_number();
                return Ok(Came::Refused { number, why });
            }
            Ok(Next::Line) => {}
        }
        match live_line(alloc, scope, &reader.line()) {
            Err(_) => return Err(ReadError::NoMemory),
            Ok(None) => {}
            Ok(Some(read)) => return Ok(came_of(read)),
        }
    }
}

/// A line that is refused for what it says, as the answer to whoever asked for a line, and why the script ended: a script that keeps going is not
/// ended by it.
fn refused_so(
    keeps: bool,
    number: u64,
    why: Refusal,
) -> (Result<Option<LiveLine>, NoLine>, Option<ScriptEnd>)
    ensures { AnswersRefused keeps number why result.0 result.1 }
{
    if keeps {
        (Ok(Some(LiveLine::Refused { number, why })), None)
    } else {
        (
            Err(NoLine::Refused),
            Some(ScriptEnd::Refused { number, why }),
        )
    }
}

/// What came as the answer to whoever asked for it, and why the script ended, if it did.
pub(crate) fn answer_of(
    came: Result<Came, ReadError>,
    keeps: bool,
) -> (Result<Option<LiveLine>, NoLine>, Option<ScriptEnd>)
    ensures { Answers keeps came result.0 result.1 }
{
    match came {
        Ok(Came::Says { number, said }) => match said {
            Ok(line) => (Ok(Some(line)), None),
            Err(why) => refused_so(keeps, number, why),
        },
        Ok(Came::End) => (Ok(None), Some(ScriptEnd::End)),
        Ok(Came::Refused { number, why }) => (
            Err(NoLine::Refused),
            Some(ScriptEnd::Refused { number, why }),
        ),
        Err(ReadError::Failed) => (Err(NoLine::ReadFault), Some(ScriptEnd::ReadFault)),
        Err(ReadError::NoMemory) => (Err(NoLine::NoMemory), Some(ScriptEnd::NoMemory)),
    }
}
