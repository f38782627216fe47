//! The text of a command, read word by word.
//!
//! A command is a verb and its arguments, each behind a flag, in one order. The forms of all commands are a list of tests, one for each
//! word; here they are followed from the left. Each function reads what stands behind a verb, and gives the column of the first word
//! that no form takes there: one past the end where a word is missing.

ghost use Rattle.std.specs.Prelude.{IfOk, Ok, drop, false, take, true, ◌==◌, ◌↔◌, ◌≡◌};
ghost use Rattle.sl_area.specs.AreaSizes.{layout_of};
ghost use Rattle.sl_command.specs.VerbReads as verbs;
ghost use Rattle.sl_text.specs.Walks.{at_end, NoneFits, read_by};
ghost use Rattle.sl_trace.specs.CommandForms as commands;
ghost use Rattle.sl_trace.specs.declared.command.Command.{Command};
ghost use Rattle.sl_trace.specs.declared.command.Command.TheVariants.{AddLockspace, GetLvb, HostStatus, InqLockspace, RemLockspace, Status};
ghost use Rattle.sl_words.specs.Results as results;

use crate::arguments;
use crate::arguments::ResourceText;
use sl_area::Geometry;
use sl_text::words::Words;
use sl_text::{Data, FilePath};
use sl_trace::{BadCommand, Command, LockspaceArg};

/// Reads `-s` and a lockspace.
fn lockspace(words: &mut Words<'_>, geometry: &Geometry) -> Result<LockspaceArg, usize>
    ensures { result ≡ verbs.lockspace_behind (layout_of geometry.now) words.old }
{
    words.expect(b"-s")?;
    let lockspace = arguments::lockspace(words, geometry)?;
    words.finish()?;
    Ok(lockspace)
}

/// Reads `-p` and a process.
fn process(words: &mut Words<'_>) -> Result<u32, usize>
    ensures { result ≡ verbs.process_behind words.old }
{
    words.expect(b"-p")?;
    let process = arguments::process(words)?;
    words.finish()?;
    Ok(process)
}

/// Reads `-c` and a program.
fn program(words: &mut Words<'_>) -> Result<FilePath, usize>
    ensures { result ≡ verbs.program_behind words.old }
{
    words.expect(b"-c")?;
    let path = words.path()?;
    words.finish()?;
    Ok(path)
}

/// Reads `-p`, a process, `-d` and a value.
fn value(words: &mut Words<'_>) -> Result<(u32, Data), usize>
    ensures { result ≡ verbs.value_behind words.old }
{
    words.expect(b"-p")?;
    let process = arguments::process(words)?;
    words.expect(b"-d")?;
    let bytes = words.hex()?;
    words.finish()?;
    Ok((process, bytes))
}

/// Reads `-f` and the force that clears a request.
fn clearing(words: &mut Words<'_>) -> Result<u32, usize>
    ensures { result ≡ verbs.force_with true words.old }
{
    words.expect(b"-f")?;
    words.expect(b"0")?;
    words.finish()?;
    Ok(0)
}

/// Reads `-f` and a force that asks.
fn asking(words: &mut Words<'_>) -> Result<u32, usize>
    ensures { result ≡ verbs.force_with false words.old }
{
    words.expect(b"-f")?;
    let force = arguments::force(words)?;
    words.finish()?;
    Ok(force)
}

/// Reads `-f` and the force that goes with an lver: 0 with 0, which clears a request; 1 or 2 with any other.
fn force(words: &mut Words<'_>, lver: u64) -> Result<u32, usize>
    ensures { result ≡ verbs.force_with (lver == 0) words.old }
{
    if lver == 0 {
        clearing(words)
    } else {
        asking(words)
    }
}

/// Reads an option, which is given as 1 or not at all; says whether it was.
fn option(words: &mut Words<'_>, name: &[u8]) -> Result<bool, usize>
    ensures exact { result ≡ verbs.option_read name.now words.old }
    ensures left { IfOk result (λ given. words.new ≡ verbs.past_option given words.old) }
{
    if !words.skip(name) {
        return Ok(false);
    }
    words.expect(b"1")?;
    Ok(true)
}

/// Reads the options of an acquire: whether it is persistent, and whether it is the orphan that is taken over.
fn options(words: &mut Words<'_>) -> Result<(bool, bool), usize>
    ensures { result ≡ verbs.options_read words.old }
{
    let persistent = option(words, b"-P")?;
    let orphan = option(words, b"-O")?;
    words.finish()?;
    Ok((persistent, orphan))
}

/// Reads `-p`, a process, and the options of an acquire.
fn holder(words: &mut Words<'_>) -> Result<(u32, bool, bool), usize>
    ensures { result ≡ verbs.holder_behind words.old }
{
    words.expect(b"-p")?;
    let process = arguments::process(words)?;
    let (persistent, orphan) = options(words)?;
    Ok((process, persistent, orphan))
}

/// The command of a holder.
fn acquiring(
    named: &ResourceText<'_>,
    shared: bool,
    process: u32,
    persistent: bool,
    orphan: bool,
) -> Command
    ensures { result ≡ verbs.acquiring named.now shared (process, persistent, orphan) }
{
    let resource = named.resource();
    if orphan {
        return Command::TakeOver {
            resource,
            shared,
            process,
            persistent,
        };
    }
    Command::Acquire {
        resource,
        shared,
        process,
        persistent,
    }
}

/// Reads what stands behind `acquire`.
fn acquire(words: &mut Words<'_>, geometry: &Geometry) -> Result<Command, usize>
    ensures { result ≡ verbs.acquire_read (layout_of geometry.now) words.old }
{
    words.expect(b"-r")?;
    let (named, shared) = arguments::moded(words, geometry)?;
    let (process, persistent, orphan) = holder(words)?;
    Ok(acquiring(&named, shared, process, persistent, orphan))
}

/// Reads `-O` and its 1, or else `-p` and a process.
fn releaser(words: &mut Words<'_>) -> Result<Option<u32>, usize>
    ensures { result ≡ verbs.releaser_behind words.old }
{
    if words.skip(b"-O") {
        words.expect(b"1")?;
        words.finish()?;
        return Ok(None);
    }
    Ok(Some(process(words)?))
}

/// Reads what stands behind `release`.
fn release(words: &mut Words<'_>, geometry: &Geometry) -> Result<Command, usize>
    ensures { result ≡ verbs.release_read (layout_of geometry.now) words.old }
{
    words.expect(b"-r")?;
    let named = arguments::resource(words, geometry)?;
    match releaser(words)? {
        Some(process) => Ok(Command::Release {
            resource: named.resource(),
            process,
        }),
        None => Ok(Command::ReleaseOrphan(named.resource())),
    }
}

/// Reads what stands behind `convert`.
fn convert(words: &mut Words<'_>, geometry: &Geometry) -> Result<Command, usize>
    ensures { result ≡ verbs.convert_read (layout_of geometry.now) words.old }
{
    words.expect(b"-r")?;
    let (named, shared) = arguments::moded(words, geometry)?;
    let process = process(words)?;
    Ok(Command::Convert {
        resource: named.resource(),
        shared,
        process,
    })
}

/// Reads what stands behind `set_killpath`.
fn set_killpath(words: &mut Words<'_>) -> Result<Command, usize>
    ensures { result ≡ verbs.killpath_read words.old }
{
    words.expect(b"-p")?;
    let process = arguments::process(words)?;
    words.expect(b"-c")?;
    let program = words.path()?;
    words.finish()?;
    Ok(Command::SetKillpath { process, program })
}

/// Reads what stands behind `command`.
fn run_program(words: &mut Words<'_>, geometry: &Geometry) -> Result<Command, usize>
    ensures { result ≡ verbs.program_read (layout_of geometry.now) words.old }
{
    words.expect(b"-r")?;
    let (named, shared) = arguments::moded(words, geometry)?;
    let program = program(words)?;
    Ok(Command::RunProgram {
        resource: named.resource(),
        shared,
        program,
    })
}

/// Reads what stands behind `request`.
fn request(words: &mut Words<'_>, geometry: &Geometry) -> Result<Command, usize>
    ensures { result ≡ verbs.request_read (layout_of geometry.now) words.old }
{
    words.expect(b"-r")?;
    let (named, lver) = arguments::request(words, geometry)?;
    let force = force(words, lver)?;
    Ok(Command::Request {
        resource: named.resource(),
        lver,
        force,
    })
}

/// Reads what stands behind `get_lvb`.
fn get_lvb(words: &mut Words<'_>, geometry: &Geometry) -> Result<Command, usize>
    ensures { result ≡ verbs.for_process (layout_of geometry.now) (λ r p. GetLvb r p) words.old }
{
    words.expect(b"-r")?;
    let named = arguments::resource(words, geometry)?;
    let process = process(words)?;
    Ok(Command::GetLvb {
        resource: named.resource(),
        process,
    })
}

/// Reads what stands behind `set_lvb`.
fn set_lvb(words: &mut Words<'_>, geometry: &Geometry) -> Result<Command, usize>
    ensures { result ≡ verbs.value_read (layout_of geometry.now) words.old }
{
    words.expect(b"-r")?;
    let named = arguments::resource(words, geometry)?;
    let (process, value) = value(words)?;
    Ok(Command::SetLvb {
        resource: named.resource(),
        process,
        value,
    })
}

/// Reads what stands behind `add_lockspace`.
fn add_lockspace(words: &mut Words<'_>, geometry: &Geometry) -> Result<Command, usize>
    ensures { result ≡ results.◌>>=◌ (verbs.lockspace_behind (layout_of geometry.now) words.old) (λ a. Ok (AddLockspace a)) }
{
    Ok(Command::AddLockspace(lockspace(words, geometry)?))
}

/// Reads what stands behind `rem_lockspace`.
fn rem_lockspace(words: &mut Words<'_>, geometry: &Geometry) -> Result<Command, usize>
    ensures { result ≡ results.◌>>=◌ (verbs.lockspace_behind (layout_of geometry.now) words.old) (λ a. Ok (RemLockspace a)) }
{
    Ok(Command::RemLockspace(lockspace(words, geometry)?))
}

/// Reads what stands behind `inq_lockspace`.
fn inq_lockspace(words: &mut Words<'_>, geometry: &Geometry) -> Result<Command, usize>
    ensures { result ≡ results.◌>>=◌ (verbs.lockspace_behind (layout_of geometry.now) words.old) (λ a. Ok (InqLockspace a)) }
{
    Ok(Command::InqLockspace(lockspace(words, geometry)?))
}

/// Reads what stands behind `host_status`.
fn host_status(words: &mut Words<'_>, geometry: &Geometry) -> Result<Command, usize>
    ensures { result ≡ results.◌>>=◌ (verbs.lockspace_behind (layout_of geometry.now) words.old) (λ a. Ok (HostStatus a)) }
{
    Ok(Command::HostStatus(lockspace(words, geometry)?))
}

/// Reads what stands behind `status`, which is nothing.
fn status(words: &Words<'_>) -> Result<Command, usize>
    ensures { result ≡ results.◌>>=◌ (at_end words.now) (λ _. Ok Status) }
{
    words.finish()?;
    Ok(Command::Status)
}

/// Reads the words of a command with one of the last four verbs, where no form before theirs takes the next word.
fn last_command(words: &mut Words<'_>, geometry: &Geometry) -> Result<Command, usize>
    requires front { NoneFits words.old (take 12 (commands.forms (layout_of geometry.now))) }
    requires middle { NoneFits words.old (take 8 (drop 12 (commands.forms (layout_of geometry.now)))) }
    ensures { result ≡ read_by (commands.forms (layout_of geometry.now)) words.old }
{
    if words.skip(b"get_lvb") {
        return get_lvb(words, geometry);
    }
    if words.skip(b"set_lvb") {
        return set_lvb(words, geometry);
    }
    if words.skip(b"set_killpath") {
        return set_killpath(words);
    }
    if words.skip(b"status") {
        return status(words);
    }
    Err(words.column())
}

/// Reads the words of a command with a verb from `release` on, where no form before that one's takes the next word.
fn later_command(words: &mut Words<'_>, geometry: &Geometry) -> Result<Command, usize>
    requires { NoneFits words.old (take 12 (commands.forms (layout_of geometry.now))) }
    ensures { result ≡ read_by (commands.forms (layout_of geometry.now)) words.old }
{
    if words.skip(b"release") {
        return release(words, geometry);
    }
    if words.skip(b"convert") {
        return convert(words, geometry);
    }
    if words.skip(b"command") {
        return run_program(words, geometry);
    }
    if words.skip(b"request") {
        return request(words, geometry);
    }
    last_command(words, geometry)
}

/// Reads the words of a command; else gives the column of the first word that no form takes.
fn command(words: &mut Words<'_>, geometry: &Geometry) -> Result<Command, usize>
    ensures { result ≡ read_by (commands.forms (layout_of geometry.now)) words.old }
{
    if words.skip(b"acquire") {
        return acquire(words, geometry);
    }
    if words.skip(b"add_lockspace") {
        return add_lockspace(words, geometry);
    }
    if words.skip(b"rem_lockspace") {
        return rem_lockspace(words, geometry);
    }
    if words.skip(b"inq_lockspace") {
        return inq_lockspace(words, geometry);
    }
    if words.skip(b"host_status") {
        return host_status(words, geometry);
    }
    later_command(words, geometry)
}

/// The command that a text says; else the column of the first word that no form takes.
#[tactic(auto, using(crate::proofs::VerbLaws::whole))]
fn parsed(text: &[u8], geometry: &Geometry) -> Result<Command, BadCommand>
    ensures { result ≡ verbs.answered (commands.command_in (commands.forms (layout_of geometry.now)) text.now) }
{
    match command(&mut Words::new(text), geometry) {
        Ok(command) => Ok(command),
        Err(column) => Err(BadCommand {
            column: column as u64,
        }),
    }
}

/// The command that a text says. The ids and the offsets that it may name are those of the run: 1 to the number of hosts, and the
/// bases of areas.
///
/// An `Err` has the column, counted in bytes from 1, of the first word that no form of a command takes behind the words before it; one
/// past the text's end where a word is missing. Words are cut at each single space, so two spaces have an empty word between them, which
/// no form takes; the empty text is one empty word, at column 1. It takes no memory.
pub fn parse_command(text: &[u8], geometry: &Geometry) -> Result<Command, BadCommand>
    ensures exact { result ≡ verbs.answered (commands.command_in (commands.forms (layout_of geometry.now)) text.now) }
    // The answer is a command exactly where the text is that command's, and the command may name what it does.
    ensures spelled { (c : Command) → (result ≡ Ok c) ↔ commands.SpellsCommand (layout_of geometry.now) text.now c }
{
    // A command has one text where there are fewer than 2^64 hosts; reading their number tells the proof that there are.
    let _hosts = geometry.hosts();
    parsed(text, geometry)
}
