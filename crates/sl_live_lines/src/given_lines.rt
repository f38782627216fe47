//! Lines that are given to a machine.

ghost use Rattle.sl_live_lines.specs.AuditedHistory.{IsOther, IsThat};
ghost use Rattle.sl_live_lines.specs.LocksAlong.{line_given};
ghost use Rattle.sl_live_lines.specs.declared.given_lines.GivenLine.TheVariants.{ForHost as ForHostOf, ForLocks as ForLocksOf};
ghost use Rattle.std.specs.Option.{option_copied};
ghost use Rattle.std.specs.Prelude.{IsFalse, IsTrue, Some, is_some, ◌↔◌, ◌≡◌};

use sl_text::Bytes;
use sl_trace::Input;

/// A line that is given to a machine: for its daemon, or for lvmlockd.
#[derive(Drop, PartialEq, Eq)]
pub enum GivenLine {
    ForHost(Bytes),
    ForLocks(Bytes),
}

/// Whether an input gives a line of the script, a command or one for lvmlockd.
pub(crate) fn has_line(input: &Input) -> bool
    ensures { result ≡ is_some (line_given input.now) }
{
    match input {
        Input::Line(_) => true,
        Input::Number(_) => true,
        Input::Answer { .. } => false,
        Input::Wake => false,
        Input::Exit { .. } => false,
        Input::Spawned { .. } => false,
    }
}

/// Whether an input gives the daemon this line.
fn gives_host(input: &Input, due: &Bytes) -> bool
    ensures { IsTrue result ↔ (line_given input.now ≡ Some (ForHostOf due.now)) }
{
    match input {
        Input::Line(text) => text == due,
        Input::Number(_) => false,
        Input::Answer { .. } => false,
        Input::Wake => false,
        Input::Exit { .. } => false,
        Input::Spawned { .. } => false,
    }
}

/// Whether it gives lvmlockd this line.
fn gives_locks(input: &Input, due: &Bytes) -> bool
    ensures { IsTrue result ↔ (line_given input.now ≡ Some (ForLocksOf due.now)) }
{
    match input {
        Input::Number(text) => text == due,
        Input::Line(_) => false,
        Input::Answer { .. } => false,
        Input::Wake => false,
        Input::Exit { .. } => false,
        Input::Spawned { .. } => false,
    }
}

/// Whether it gives this line.
fn gives(input: &Input, due: &GivenLine) -> bool
    ensures { IsTrue result ↔ (line_given input.now ≡ Some due.now) }
{
    match due {
        GivenLine::ForHost(text) => gives_host(input, text),
        GivenLine::ForLocks(text) => gives_locks(input, text),
    }
}

/// Whether the line that an input gives, if it gives one, is the one that is due.
pub(crate) fn is_due(input: &Input, due: Option<&GivenLine>) -> bool
    ensures that { IsTrue result → IsThat (line_given input.now) (option_copied due.entry) }
    ensures other { IsFalse result → IsOther (line_given input.now) (option_copied due.entry) }
{
    if !has_line(input) {
        return true;
    }
    match due {
        Some(line) => gives(input, line),
        None => false,
    }
}
