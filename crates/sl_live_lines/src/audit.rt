//! A history that nobody keeps, gone along entry by entry.

ghost use Rattle.sl_live_lines.specs.AuditedHistory.{IsAnswered, IsAudit, IsLeft, IsOpenIn, IsOther, KeepsAsk, NothingOpenIn, due_line, own_lines};
ghost use Rattle.sl_live_lines.specs.EventTexts.{Telling, first_telling};
ghost use Rattle.sl_live_lines.specs.LiveTexts.{count_replies, step_jobs, step_text};
ghost use Rattle.sl_live_lines.specs.LocksAlong.{AlongState, along, begun_along, line_given, runs_line};
ghost use Rattle.sl_live_lines.specs.declared.given_lines.GivenLine.{GivenLine as GivenLineOf};
ghost use Rattle.sl_trace.specs.declared.effects.Entry.{Entry as EntryOf};
ghost use Rattle.sl_words.specs.Bounds.{moments};
ghost use Rattle.std.specs.Option.{option_copied};
ghost use Rattle.std.specs.Prelude.{All, IfNone, IfOk, IfSome, IsFalse, IsTrue, List, OnOk, Some, false, length, [], ◌++◌, ◌+◌, ◌<◌, ◌∷◌, ◌≡◌, ◌≤◌};

use crate::event_texts::Events;
use crate::given_lines::{has_line, is_due};
use crate::live_texts::push_step;
use crate::marks::{note_calls, note_starts};
use crate::open_numbers::Open;
use crate::{Along, GivenLine};
use sl_run::Header;
use sl_trace::{Entry, Given};
use std::alloc::{AllocError, Global};

/// What is left at the end of a history: a line for lvmlockd that runs; or a call, or the start of a child, by its number, that nothing answers, with
/// the number of its entry, counted from 1.
#[derive(Clone, Copy)]
pub enum Left {
    Line,
    Call { number: u64, call: u64 },
    Start { number: u64, process: u64 },
}

/// What is kept of a history to go on along it: what its events are told by, lvmlockd's locks, what is open, and how many entries and replies came. It
/// grows with what is open alone, and, where events are told, with the lockspaces that are joined.
#[derive(Drop)]
pub struct Audit {
    telling: Events,
    locks: Along,
    number: u64,
    calls: Open,
    starts: Open,
    replies: u64,
}

/// The sum. An `Err` is want of a number for it.
fn sum(a: u64, b: u64) -> Result<u64, AllocError>
    ensures { IfOk result (λ n. n ≡ a + b) }
{
    a.checked_add(b).ok_or(AllocError)
}

/// The sum of a count and of the jobs behind so many. An `Err` is want of a number for it.
fn count_behind(count: u64, jobs: &[u64], before: usize) -> Result<u64, AllocError>
    requires { before ≤ length jobs.now }
    ensures { IfOk result (λ n. n + before ≡ count + length jobs.now) }
{
    sum(count, (jobs.len() - before) as u64)
}

impl Audit {
    /// Before the first entry of a daemon of this header with these sessions, whose first job has this number; whether events are told. An `Err` is
    /// want of memory: where no events are told it takes none.
    pub fn new(
        alloc: Global,
        header: &Header,
        first_job: u64,
        given: &[Given],
        events: bool,
    ) -> Result<Audit, AllocError>
        requires { All (λ g. g.renewed < moments) given.now }
        ensures { IfOk result (IsAudit (first_telling events header.now.timing given.now) (begun_along header.now first_job) []) }
    {
        Ok(Audit {
            telling: Events::new(alloc, &header.timing, given, events)?,
            locks: Along::new(alloc, header, first_job),
            number: 0,
            calls: Open::new(alloc),
            starts: Open::new(alloc),
            replies: 0,
        })
    }

    /// Whether the next entry has a line of the script's own: one that comes while no line for lvmlockd runs.
    pub fn has_own_line(&self, entry: &Entry) -> bool
        ensures own { IsTrue result → (l : GivenLineOf) × (own_lines self.now.locks entry.now ≡ l ∷ []) }
        ensures none { IsFalse result → own_lines self.now.locks entry.now ≡ [] }
    {
        !self.locks.runs_line() && has_line(&entry.input)
    }

    /// Whether the next entry's line, if it has one, is the one that is due: the script's next, which is this, if it is there; or, while a line for
    /// lvmlockd runs, that one's next ask. An `Err` is want of memory.
    pub fn fits(&self, entry: &Entry, next: Option<&GivenLine>) -> Result<bool, AllocError>
        ensures ask { IfOk result (λ b. IsTrue b → KeepsAsk self.now.locks entry.now) }
        ensures own { IfOk result (λ b. IsTrue b → (l : GivenLineOf) → own_lines self.now.locks entry.now ≡ l ∷ [] → option_copied next.entry ≡ Some l) }
        ensures other { IfOk result (λ b. IsFalse b → IsOther (line_given entry.now.input) (due_line self.now.locks (option_copied next.entry))) }
    {
        if self.locks.runs_line() {
            let due = self.locks.due_ask()?;
            Ok(is_due(&entry.input, due.as_ref()))
        } else {
            Ok(is_due(&entry.input, next))
        }
    }

    /// Goes on by an entry: adds the lines of what is told of it to `out`, and the jobs whose replies these are to `jobs`. An `Err` is want of memory,
    /// or of a number for a count: then what was added may be a part, and the value is of no use any more.
    pub fn step(
        &mut self,
        out: &mut Vec<u8>,
        jobs: &mut Vec<u64>,
        machine: usize,
        entry: &Entry,
    ) -> Result<(), AllocError>
        ensures text { OnOk result (out.new.items ≡ out.old.items ++ step_text machine self.old.telling self.old.locks entry.now) }
        ensures jobs { OnOk result (jobs.new.items ≡ jobs.old.items ++ step_jobs self.old.locks entry.now) }
        ensures on { (t : Telling) → (a : AlongState) → (h : List EntryOf) → IsAudit t a h self.old → KeepsAsk self.old.locks entry.now → OnOk result (IsAudit t a (h ++ entry.now ∷ []) self.new) }
    {
        let number = sum(self.number, 1)?;
        let before = jobs.as_slice().len();
        self.telling.push(out, machine, entry)?;
        push_step(out, jobs, machine, &mut self.locks, entry)?;
        self.telling.step(entry)?;
        self.replies = count_behind(self.replies, jobs, before)?;
        note_calls(&mut self.calls, number, entry)?;
        note_starts(&mut self.starts, number, entry)?;
        self.number = number;
        Ok(())
    }

    /// One of those that are open, if there is one: a call before a start.
    fn first_open(&self) -> Option<Left>
        ensures some { IfSome result (IsOpenIn self.now) }
        ensures none { IfNone result (NothingOpenIn self.now) }
    {
        if self.locks.runs_line() {
            return Some(Left::Line);
        }
        if let Some((call, number)) = self.calls.first() {
            return Some(Left::Call { number, call });
        }
        let (process, number) = self.starts.first()?;
        Some(Left::Start { number, process })
    }

    /// What is left where the history ends here, if anything is: a line for lvmlockd that runs, a call or a start that nothing answers.
    pub fn left(&self) -> Option<Left>
        ensures none { (t : Telling) → (a : AlongState) → (h : List EntryOf) → IsAudit t a h self.now → IfNone result ((runs_line (along a h) ≡ false) × IsAnswered h) }
        ensures some { (t : Telling) → (a : AlongState) → (h : List EntryOf) → IsAudit t a h self.now → IfSome result (IsLeft a h) }
    {
        self.first_open()
    }

    /// How many replies to lines were told so far.
    pub fn replies(&self) -> u64
        ensures { (t : Telling) → (a : AlongState) → (h : List EntryOf) → IsAudit t a h self.now → result ≡ count_replies a h }
    {
        self.replies
    }

    /// How many entries of the history were looked at so far.
    pub fn entries(&self) -> u64
        ensures { (t : Telling) → (a : AlongState) → (h : List EntryOf) → IsAudit t a h self.now → result ≡ length h }
    {
        self.number
    }
}
