//! Schedules and live scripts, read from a source, a line at a time.
//!
//! A source gives its bytes in whatever pieces it likes. `LineReader` cuts them into lines: it has a buffer for one line and another for one
//! piece, so what it takes does not grow with the source, and bytes of a piece behind the line stay for the next one. A line is refused as
//! soon as the byte is read for which it is: the first one behind the longest line, or behind the last one that a schedule may have. Nothing
//! is read behind that piece. Once the source has ended, it is not asked again.
//!
//! A live line is one of four: `command M TEXT` and `post M TEXT` give a text to machine M, `command M lvm LINE` gives a line to its lvmlockd,
//! `exits M P` waits for its child P. The texts and the numbers are those of a schedule: a line is read as the schedule's line with the verb that
//! stands for its own, `command` for `post` and `exit` for `exits`. A text that names a process of a script, 1 to 999999, is refused: behind
//! the commands of a live script stand real programs alone. So is a text for lvmlockd's process, which acts by lines of its own, and a posted
//! line for lvmlockd: its asks take the numbers behind its own, so its reply is waited for.
//!
//! A script has a schedule's header, and behind its `begin` live lines: `ScriptLines` reads on from the header's reader, whenever it is asked, up
//! to the next line that says something. No line is read before it is wanted, so whoever writes the script may see what the last line did. A
//! line that is refused, a read that fails, want of memory and the end of the source end the script, and why it ended is kept. A script may also
//! be read so that it goes on behind a line that is refused: then that it is refused is given in the line's place, and only a line that is refused
//! before it is read still ends the script. Which source it is, where its header ended and how it is read, is said by a type parameter, `Origin`:
//! so the lines that were given are tied to the bytes that were read by the type itself, whoever has asked for them.
#![tactic(auto)]

mod header;
mod live_line_words;
mod live_lines;
mod origin;
mod piece;
mod reader;
mod scope;
mod script;
mod script_reading;

pub use header::read_header;
pub use live_line_words::{LiveRead, live_line};
pub use live_lines::{LiveLine, LiveLines, NoLine};
pub use origin::Origin;
pub use reader::{LineReader, Next, ReadError};
pub use scope::Scope;
pub use script::ScriptLines;
pub use script_reading::ScriptEnd;
