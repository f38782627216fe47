//! The words of the command line, turned into what they say.

ghost use Rattle.clap.specs.Values.{kind_of};
ghost use Rattle.sl_cli.specs.Actions.{action_in};
ghost use Rattle.sl_cli.specs.CommandWords.{asks_of_program, command_in, generated, is_only, said_in, scheduled, seeding_in};
ghost use Rattle.sl_cli.specs.ParserMeets.{IsRefused, TakenAs, said_by};
ghost use Rattle.sl_cli.specs.Spellings.{CanBeDone};
ghost use Rattle.sl_cli.specs.declared.command_words.Words.TheVariants.{Direct};
ghost use Rattle.sl_cli.specs.declared.command_words.WordsError.TheVariants.{Bad, NoMemory};
ghost use Rattle.std.specs.Prelude.{Err, IfOk, IfSome, None, Some, false, map, option_and_then, option_map, string_bytes, ◌≡◌};

use crate::folder::Folder;
use crate::own_words::{is_own, own_words};
use crate::parsed_command::{Given, Met, Seeding, met_in};
use crate::parser_shape::command_line;
use crate::timed_words::{is_timed, timed_words};
use clap::Error;
use clap::error::ErrorKind;
use sl_area::Geometry;
use sl_direct::Action;
use sl_time::Timing;
use sl_trace::LockspaceArg;
use std::alloc::{AllocError, Global};

/// What the words of the command line say.
#[derive(Drop)]
pub enum Words {
    /// Run a schedule, and report it.
    Replay,
    /// Run a schedule, and draw it: the lines from `first` to `last`.
    Draw {
        first: u64,
        last: u64,
    },
    /// Make a schedule of so many events (0 to 1000000) for so many hosts (1 to 16) from a seed, with pairs or without, and run it.
    Generate {
        seed: u64,
        hosts: u32,
        events: u64,
        paired: bool,
    },
    /// Tell a schedule of so many events (0 to 1000000) for so many hosts (1 to 16) from a seed, with pairs or without.
    Schedule {
        seed: u64,
        hosts: u32,
        events: u64,
        paired: bool,
    },
    /// Do this to an area.
    Direct(Action),
    /// Initialise this lockspace with a label of these times, and this grace.
    Label {
        lockspace: LockspaceArg,
        geometry: Geometry,
        timing: Timing,
        grace: u64,
    },
    /// Run live machines by a script, on disks that are files below this folder; `anew`: those that are there are made anew; `keeps`: a line that
    /// is refused ends nothing; `events`: beside replies what becomes of children, and which connections run out, is told.
    Live {
        folder: Folder,
        anew: bool,
        keeps: bool,
        events: bool,
    },
    /// Run the machine of this number alone, 1 to 16, by the live script on standard input, on disks that stand as files below this folder; `watchdog`:
    /// the path of a watchdog device, if one is given; `syncs`: writes reach the storage before they are answered; `keeps` and `events` as above.
    Own {
        folder: Folder,
        machine: u32,
        watchdog: Option<Folder>,
        syncs: bool,
        keeps: bool,
        events: bool,
    },
    /// Put out the help.
    Help,
    /// Put out the version.
    Version,
}

/// Why they say nothing.
#[derive(Clone, Copy, Debug, PartialEq, Eq)]
pub enum WordsError {
    /// They are no words of the program.
    Bad,
    /// There is no memory.
    NoMemory,
}

impl From<AllocError> for WordsError {
    ghost from_gives = { λ _ e. e ≡ NoMemory };

    fn from(_error: AllocError) -> WordsError {
        WordsError::NoMemory
    }
}

/// Whether the words are one of these two, alone.
fn is_only(words: &[String], long: &str, short: &str) -> bool
    ensures { result ≡ is_only long.now short.now (map string_bytes words.now) }
{
    match words {
        [word] => word.as_str() == long || word.as_str() == short,
        _ => false,
    }
}

/// Why the parser fails.
fn error_of(error: &Error) -> WordsError
    ensures bad { result ≡ Bad → (kind_of error.now ≡ ErrorKind.OutOfMemory → ⊥) }
    ensures memory { result ≡ NoMemory → kind_of error.now ≡ ErrorKind.OutOfMemory }
{
    match error.kind() {
        ErrorKind::OutOfMemory => WordsError::NoMemory,
        _ => WordsError::Bad,
    }
}

/// What was given to `direct` says.
fn directed(given: &Given<'_>) -> Option<Words>
    ensures exact { result ≡ option_map (λ a. Direct a) (action_in given.now) }
    ensures can { IfSome result CanBeDone }
{
    Some(Words::Direct(given.action()?))
}

/// What was given to `gen` says.
fn generated(given: &Seeding<'_>) -> Option<Words>
    ensures exact { result ≡ option_map generated (seeding_in given.now.seed given.now.hosts given.now.events given.now.format) }
    ensures can { IfSome result CanBeDone }
{
    let asked = given.seed()?;
    Some(Words::Generate {
        seed: asked.number,
        hosts: asked.hosts,
        events: asked.events,
        paired: asked.paired,
    })
}

/// What was given to `schedule` says.
fn scheduled(given: &Seeding<'_>) -> Option<Words>
    ensures exact { result ≡ option_map scheduled (seeding_in given.now.seed given.now.hosts given.now.events given.now.format) }
    ensures can { IfSome result CanBeDone }
{
    let asked = given.seed()?;
    Some(Words::Schedule {
        seed: asked.number,
        hosts: asked.hosts,
        events: asked.events,
        paired: asked.paired,
    })
}

/// What a command says. An `Err` is want of memory.
fn said(alloc: Global, met: Met<'_>) -> Result<Option<Words>, AllocError>
    ensures exact { IfOk result (λ words. words ≡ said_by met.entry) }
    ensures can { IfOk result (λ words. IfSome words CanBeDone) }
{
    match met {
        Met::Replay => Ok(Some(Words::Replay)),
        Met::Draw(given) => Ok(given.part()),
        Met::Generate(given) => Ok(generated(&given)),
        Met::Schedule(given) => Ok(scheduled(&given)),
        Met::Direct(given) => Ok(directed(&given)),
        Met::Live(given) => given.words(alloc),
    }
}

/// The command that the parser meets in the words, if they are of one.
fn parse<'a>(alloc: Global, words: &'a [String]) -> Result<Option<Met<'a>>, WordsError>
    ensures read { IfOk result (λ m. TakenAs (map string_bytes words.entry.now) m) }
    ensures bad { result ≡ Err Bad → IsRefused (map string_bytes words.entry.now) }
{
    let command = command_line(alloc)?;
    match command.try_get_matches_from(words) {
        Ok(matches) => Ok(met_in(&matches)),
        Err(error) => Err(error_of(&error)),
    }
}

/// The command that the words name, if they are of one.
fn command<'a>(alloc: Global, words: &'a [String]) -> Result<Option<Met<'a>>, WordsError>
    ensures read { IfOk result (λ met. option_and_then said_by met ≡ command_in (map string_bytes words.entry.now)) }
    ensures bad { result ≡ Err Bad → command_in (map string_bytes words.entry.now) ≡ None }
{
    parse(alloc, words)
}

/// What words say that are all the parser's. `Bad` comes exactly where they say nothing.
pub(crate) fn plain_words(alloc: Global, words: &[String]) -> Result<Words, WordsError>
    ensures read { IfOk result (λ w. command_in (map string_bytes words.now) ≡ Some w) }
    ensures bad { result ≡ Err Bad → command_in (map string_bytes words.now) ≡ None }
    ensures can { IfOk result CanBeDone }
{
    let met = command(alloc, words)?.ok_or(WordsError::Bad)?;
    said(alloc, met)?.ok_or(WordsError::Bad)
}

/// What the words of the command line say; the program's name is none of them. An action that they ask for can be done. `Bad` comes exactly
/// where they say nothing; in place of either may come `NoMemory`, but not for the help and the version.
pub fn read_words(alloc: Global, words: &[String]) -> Result<Words, WordsError>
    ensures read { IfOk result (λ w. said_in (map string_bytes words.now) ≡ Some w) }
    ensures bad { result ≡ Err Bad → said_in (map string_bytes words.now) ≡ None }
    ensures memory { result ≡ Err NoMemory → asks_of_program (map string_bytes words.now) ≡ false }
    ensures can { IfOk result CanBeDone }
{
    if is_only(words, "--help", "-h") {
        Ok(Words::Help)
    } else if is_only(words, "--version", "-V") {
        Ok(Words::Version)
    } else if is_own(words) {
        own_words(alloc, words)?.ok_or(WordsError::Bad)
    } else if is_timed(words) {
        timed_words(alloc, words)
    } else {
        plain_words(alloc, words)
    }
}
