//! The lines of a live script.

ghost use Rattle.sl_reader.specs.GivenAnswers.{lines_in};
ghost use Rattle.sl_reader.specs.ScriptReading.{IsScript, ReadsScriptBy};
ghost use Rattle.sl_reader.specs.declared.live_lines.LiveLine.{LiveLine as LineOf};
ghost use Rattle.sl_run.specs.declared.header.Header.{Header as HeaderOf};
ghost use Rattle.sl_reader.specs.HeaderBegins.{HeaderBegins};
ghost use Rattle.sl_reader.specs.LineReads.{EndStands};
ghost use Rattle.std.specs.Prelude.{List, None, Option, [], ℕ, ◌≡◌, ◌≤◌};

use crate::origin::Origin;
use crate::script_reading::{ScriptEnd, answer_of, read_on};
use crate::{LineReader, LiveLine, LiveLines, NoLine, Scope};
use sl_io::Source;
use std::alloc::Global;
use std::marker::{Model, PhantomData};

/// The lines of a script behind its header: read one at a time, as they are asked for, and kept by nobody. Contracts see how far it is read, so
/// which lines may have been given, and why the script ended, if it did.
///
/// A line that is refused for what it says ends the script, or is given as such a line where the script keeps going. One that is refused before
/// it is read ends it always.
pub struct ScriptLines<S: Source, J: Origin> {
    alloc: Global,
    source: S,
    reader: LineReader,
    scope: Scope,
    keeps: bool,
    end: Option<ScriptEnd>,
    of: PhantomData<J>,
}

impl<S: Source, J: Origin> Model for ScriptLines<S, J> {
    ghost use Rattle.sl_reader.specs.ScriptReading.{IsAhead, ScriptState};

    ghost Value = { ScriptState };

    ghost view = { λ s. record { left = S.left s.source; faults = S.faults s.source; reader = s.reader; scope = s.scope; keeps = s.keeps; end = s.end } };

    ghost invariant = { λ s. IsAhead J.faults (S.left s.source) (S.faults s.source) s.reader s.end };
}

/// The answer where a script has ended.
fn answer_at(end: ScriptEnd) -> Result<Option<LiveLine>, NoLine>
    ensures { lines_in result ≡ [] }
{
    match end {
        ScriptEnd::End => Ok(None),
        ScriptEnd::Refused { .. } => Err(NoLine::Refused),
        ScriptEnd::ReadFault => Err(NoLine::ReadFault),
        ScriptEnd::NoMemory => Err(NoLine::NoMemory),
    }
}

impl<S: Source, J: Origin> ScriptLines<S, J> {
    /// The lines behind a header that this reader has read of the source, by these names of it, in a script that goes on behind a line that is refused, or does not: it, and
    /// what of the source and the header the lines are read by, are those that were picked.
    pub fn new(
        alloc: Global,
        source: S,
        reader: LineReader,
        scope: Scope,
        keeps: bool,
    ) -> ScriptLines<S, J>
        requires left { S.left source ≡ J.left }
        requires faults { S.faults source ≡ J.faults }
        requires began { reader ≡ J.began }
        requires scope { scope ≡ J.scope }
        requires keeps { keeps ≡ J.keeps }
        requires ends { EndStands (S.left source) reader }
        ensures end { result.end ≡ None }
        ensures none { IsScript J.keeps J.left J.faults J.began J.scope result [] }
    {
        ScriptLines {
            alloc,
            source,
            reader,
            scope,
            keeps,
            end: None,
            of: PhantomData,
        }
    }

    /// The source back, and why the script ended, if it did: what was read of the source is the script's header, the lines that were given,
    /// whichever they are, and what ended it; where it was not read to its end, whatever may have followed.
    pub fn close(self) -> (S, Option<ScriptEnd>)
        ensures end { result.1 ≡ self.end }
        ensures later { J.faults ≤ S.faults result.0 }
        ensures script { (first : Option (List ℕ)) (header : HeaderOf) (given : List LineOf) → HeaderBegins first J.left J.began header
            → IsScript J.keeps J.left J.faults J.began J.scope self given → ReadsScriptBy J.scope J.keeps first (S.left result.0) J.faults (S.faults result.0) header given result.1 }
    {
        let ScriptLines {
            alloc: _,
            source,
            reader: _,
            scope: _,
            keeps: _,
            end,
            of: _,
        } = self;
        (source, end)
    }
}

impl<S: Source, J: Origin> LiveLines for ScriptLines<S, J> {
    ghost use Rattle.sl_reader.specs.ScriptReading.{IsScript};

    ghost has_given = { IsScript J.keeps J.left J.faults J.began J.scope };

    fn next(&mut self) -> Result<Option<LiveLine>, NoLine> {
        match self.end {
            Some(end) => return answer_at(end),
            None => {}
        }
        let came = read_on(self.alloc, &mut self.source, &mut self.reader, &self.scope);
        let (answer, end) = answer_of(came, self.keeps);
        self.end = end;
        answer
    }
}
