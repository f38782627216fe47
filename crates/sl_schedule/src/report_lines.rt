//! The lines of a report that come from no host: a refusal, the last line, and a watchdog test's.
//!
//! Each function writes one line, whole and with its line feed, or after want of memory nothing: a report that is cut off must not
//! end in half a line, since a reader would take it for another one.

ghost use Rattle.sl_report.specs.Reports.{end_line, test_words};
ghost use Rattle.sl_report.specs.RefusalLines.{refusal_line, refusal_words};
ghost use Rattle.sl_schedule.specs.CountTexts.{count_text};
ghost use Rattle.sl_text.specs.Forms.{as_bytes, spaced};
ghost use Rattle.sl_trace.specs.EffectTexts.{machine_line};
ghost use Rattle.std.specs.Prelude.{codes, decimal, length, take, [], OnErr, OnOk, ◌++◌, ◌∷◌, ◌≡◌};

use sl_run::Refusal;
use sl_text::number::push_number;
use sl_text::write::push_line;
use std::alloc::AllocError;
use std::marker::Model;

/// What the last line of a report counts.
#[derive(Clone, Copy, Debug, PartialEq, Eq)]
pub struct Counts {
    /// How many events happened; an ask of lvmlockd's locks is none.
    pub events: u64,
    /// How many sector calls were submitted, by all daemons.
    pub calls: u64,
    /// How many holdings were granted, those of orphans and conversions too.
    pub grants: u64,
    /// The commands that were answered with a refusal.
    pub refusals: u64,
    /// The grants that left two hosts with what excludes each other.
    pub conflicts: u64,
}

impl Model for Counts {
    ghost use Rattle.std.specs.Prelude.{refl};
    ghost use Rattle.sl_report.specs.Reports as reports;

    ghost Value = { reports.Counts };

    ghost view = { λ c. record { events = c.events; calls = c.calls; grants = c.grants; refusals = c.refusals; conflicts = c.conflicts } };

    ghost inverse = { λ c. record { events = c.events; calls = c.calls; grants = c.grants; refusals = c.refusals; conflicts = c.conflicts } };

    ghost inverse_ok = { λ c is. refl };
}

/// The words of a refusal, as a report has them.
fn refusal_text(refusal: Refusal) -> &'static [u8]
    ensures { result.now ≡ spaced (refusal_words refusal) }
{
    match refusal {
        Refusal::Syntax => b"syntax",
        Refusal::LimitIo => b"limit io",
        Refusal::LimitFire => b"limit fire",
        Refusal::LimitLand => b"limit land",
        Refusal::LimitRho => b"limit rho",
        Refusal::LimitGrace => b"limit grace",
        Refusal::LimitMoment => b"limit moment",
        Refusal::LimitBytes => b"limit bytes",
        Refusal::LimitGeometry => b"limit geometry",
        Refusal::LimitIds => b"limit ids",
        Refusal::MissingMachine => b"missing machine",
        Refusal::MissingDisk => b"missing disk",
        Refusal::MissingLockspace => b"missing lockspace",
        Refusal::MissingFree => b"missing free",
        Refusal::MissingUp => b"missing up",
        Refusal::MissingDown => b"missing down",
        Refusal::MissingReset => b"missing reset",
        Refusal::MissingDaemon => b"missing daemon",
        Refusal::MissingLvm => b"missing lvm",
        Refusal::MissingCall => b"missing call",
        Refusal::MissingPlace => b"missing place",
        Refusal::MissingSample => b"missing sample",
        Refusal::MissingFlight => b"missing flight",
        Refusal::MissingLanding => b"missing landing",
        Refusal::MissingSpawn => b"missing spawn",
        Refusal::PremiseName => b"premise name",
        Refusal::PremiseTorn => b"premise torn",
        Refusal::PremiseDrift => b"premise drift",
        Refusal::PremiseWatchdog => b"premise watchdog",
        Refusal::PremiseLanding => b"premise landing",
    }
}

/// Adds a word behind a space.
fn add_word(line: &mut Vec<u8>, word: &[u8]) -> Result<(), AllocError>
    ensures { OnOk result (line.new.items ≡ line.old.items ++ 32 ∷ word.now) }
{
    line.push(b' ')?;
    line.extend_from_slice(word)
}

/// Adds the words of a refusal of the line with this number.
fn add_refusal(line: &mut Vec<u8>, number: u64, text: &[u8]) -> Result<(), AllocError>
    ensures { OnOk result (line.new.items ≡ line.old.items ++ codes "line " ++ decimal number ++ 32 ∷ text.now) }
{
    line.extend_from_slice(b"line ")?;
    push_number(line, number)?;
    add_word(line, text)
}

/// Writes the line of a refusal of the line with this number. After an `Err`, which is want of memory, the text is as it was.
pub fn push_refusal_line(out: &mut Vec<u8>, number: u64, refusal: Refusal) -> Result<(), AllocError>
    ensures ok { OnOk result (out.new.items ≡ out.old.items ++ as_bytes (refusal_line number refusal ∷ [])) }
    ensures err { OnErr result (out.new.items ≡ out.old.items) }
{
    let mut line = Vec::new(*out.allocator());
    add_refusal(&mut line, number, refusal_text(refusal))?;
    push_line(out, &line)
}

/// Adds a word and a number, a space before each.
fn add_count(line: &mut Vec<u8>, word: &[u8], count: u64) -> Result<(), AllocError>
    ensures { OnOk result (line.new.items ≡ line.old.items ++ count_text word.now count) }
{
    add_word(line, word)?;
    line.push(b' ')?;
    push_number(line, count)
}

/// Adds the counts of what was done.
fn add_done(line: &mut Vec<u8>, counts: &Counts) -> Result<(), AllocError>
    ensures { OnOk result (line.new.items ≡ line.old.items ++ count_text (codes "events") counts.now.events
        ++ count_text (codes "calls") counts.now.calls ++ count_text (codes "grants") counts.now.grants) }
{
    add_count(line, b"events", counts.events)?;
    add_count(line, b"calls", counts.calls)?;
    add_count(line, b"grants", counts.grants)
}

/// Adds the counts of what was refused and of what went wrong.
fn add_undone(line: &mut Vec<u8>, counts: &Counts) -> Result<(), AllocError>
    ensures { OnOk result (line.new.items ≡ line.old.items ++ count_text (codes "refusals") counts.now.refusals
        ++ count_text (codes "conflicts") counts.now.conflicts) }
{
    add_count(line, b"refusals", counts.refusals)?;
    add_count(line, b"conflicts", counts.conflicts)
}

/// Adds the words of the last line.
fn add_end(line: &mut Vec<u8>, counts: &Counts) -> Result<(), AllocError>
    ensures { OnOk result (line.new.items ≡ line.old.items ++ codes "end" ++ count_text (codes "events") counts.now.events
        ++ count_text (codes "calls") counts.now.calls ++ count_text (codes "grants") counts.now.grants
        ++ count_text (codes "refusals") counts.now.refusals ++ count_text (codes "conflicts") counts.now.conflicts) }
{
    line.extend_from_slice(b"end")?;
    add_done(line, counts)?;
    add_undone(line, counts)
}

/// Writes the last line of a whole report. After an `Err`, which is want of memory, the text is as it was.
pub fn push_end_line(out: &mut Vec<u8>, counts: &Counts) -> Result<(), AllocError>
    ensures ok { OnOk result (out.new.items ≡ out.old.items ++ as_bytes (end_line counts.now ∷ [])) }
    ensures err { OnErr result (out.new.items ≡ out.old.items) }
{
    let mut line = Vec::new(*out.allocator());
    add_end(&mut line, counts)?;
    push_line(out, &line)
}

/// The words of a watchdog test.
fn test_text(holds: bool) -> &'static [u8]
    ensures { result.now ≡ spaced (test_words holds) }
{
    if holds { b"test ok" } else { b"test failed" }
}

/// Adds the line of a test on a machine. What was there stays, also after an `Err`.
fn add_test(out: &mut Vec<u8>, machine: u32, text: &[u8]) -> Result<(), AllocError>
    ensures ok { OnOk result (out.new.items ≡ out.old.items ++ decimal machine ++ 32 ∷ (text.now ++ 10 ∷ [])) }
    ensures kept { take (length out.old.items) out.new.items ≡ out.old.items }
{
    push_number(out, u64::from(machine))?;
    out.push(b' ')?;
    push_line(out, text)
}

/// Writes the line of a watchdog test on a machine: whether it holds. After an `Err`, which is want of memory, the text is as it was.
pub fn push_test_line(out: &mut Vec<u8>, machine: u32, holds: bool) -> Result<(), AllocError>
    ensures ok { OnOk result (out.new.items ≡ out.old.items ++ as_bytes (machine_line machine (test_words holds) ∷ [])) }
    ensures err { OnErr result (out.new.items ≡ out.old.items) }
{
    let len = out.len();
    let pushed = add_test(out, machine, test_text(holds));
    if pushed.is_err() {
        out.truncate(len);
    }
    pushed
}
