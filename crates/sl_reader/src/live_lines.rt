//! The lines of a live script.

use sl_run::Refusal;
use sl_text::Bytes;

/// What a line of a live script says, or why it says nothing.
#[derive(Clone, Drop)]
pub enum LiveLine {
    /// The text is given to the machine; the next line is read after its reply.
    Command { machine: u32, text: Bytes },
    /// The line is given to lvmlockd of the machine; the next line is read after its reply.
    Locks { machine: u32, line: Bytes },
    /// The text is given to the machine; the next line is read at once.
    Post { machine: u32, text: Bytes },
    /// The next line is read once the machine's child has exited, if it was started.
    Exits { machine: u32, process: u32 },
    /// The line of this number is refused, in a script that goes on behind such a line: it gives nothing, and the next line is read at once.
    Refused { number: u64, why: Refusal },
}

/// Why a script has no further line.
#[derive(Clone, Copy, Debug, PartialEq, Eq)]
pub enum NoLine {
    /// A line was refused, at which the script ends.
    Refused,
    /// A read of the script failed.
    ReadFault,
    /// There is no memory for a line.
    NoMemory,
}

/// Where the lines come from. After an `Err` and after the end it is not asked again.
pub trait LiveLines {
    ghost use Rattle.sl_reader.specs.GivenAnswers.{lines_in};
    ghost use Rattle.sl_reader.specs.declared.live_lines.LiveLine.{LiveLine as LineOf};
    ghost use Rattle.std.specs.Prelude.{List, ◌++◌};

    /// Whether these are the lines that it gave so far, the oldest first. Nobody keeps them.
    ghost has_given: { Self → List LineOf → Type 0 };

    /// The next line; none at the end.
    fn next(&mut self) -> Result<Option<LiveLine>, NoLine>
        ensures { (given : List LineOf) → has_given self.old given → has_given self.new (given ++ lines_in result) };
}
