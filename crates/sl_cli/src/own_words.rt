//! The words of one machine in a process of its own: `live FOLDER --machine M`, and then options in any order.
//!
//! They are read here and not by the argument parser: the machine's option stands at one place, so words without it are the parser's as before.

ghost use Rattle.sl_cli.specs.OwnWords as own;
ghost use Rattle.sl_cli.specs.Spellings.{CanBeDone};
ghost use Rattle.sl_words.specs.Words.{choose};
ghost use Rattle.sl_text.specs.Numbers.{number_of};
ghost use Rattle.std.specs.Prelude.{IfOk, IfSome, map, option_map, string_bytes, [], ◌≡◌, ◌≤◌};

use crate::command_words::Words;
use crate::folder::Folder;
use sl_text::number::read_number_within;
use std::alloc::{AllocError, Global};
use std::marker::Model;

/// What the options say so far, and whether the next word is the path of the watchdog device.
#[derive(Drop)]
struct Options<'a> {
    watchdog: Option<&'a str>,
    syncs: bool,
    keeps: bool,
    events: bool,
    waits: bool,
}

impl<'a> Model for Options<'a> {
    ghost use Rattle.sl_cli.specs.OwnWords as own;
    ghost use Rattle.std.specs.Prelude.{option_map};

    ghost Value = { own.Options };

    ghost view = { λ o. record { watchdog = option_map (λ w. w.now) o.watchdog; syncs = o.syncs; keeps = o.keeps; events = o.events; waits = o.waits } };
}

impl<'a> Options<'a> {
    /// Before all of them.
    fn none() -> Options<'a>
        ensures { result ≡ own.no_options }
    {
        Options {
            watchdog: None,
            syncs: true,
            keeps: false,
            events: false,
            waits: false,
        }
    }

    /// With the path of the watchdog device, which is waited for.
    fn with_path(self, word: &'a str) -> Option<Options<'a>>
        ensures { result ≡ own.with_path self.entry word.now }
    {
        if is_rooted(word) {
            Some(Options {
                watchdog: Some(word),
                syncs: self.syncs,
                keeps: self.keeps,
                events: self.events,
                waits: false,
            })
        } else {
            None
        }
    }

    /// With the option of a watchdog device, whose path is waited for.
    fn with_watchdog(self) -> Option<Options<'a>>
        ensures { result ≡ own.with_watchdog self.entry }
    {
        match self.watchdog {
            Some(_) => None,
            None => Some(Options {
                watchdog: None,
                syncs: self.syncs,
                keeps: self.keeps,
                events: self.events,
                waits: true,
            }),
        }
    }

    /// With this flag, if it is one, and was not given before.
    fn with_flag(self, word: &str) -> Option<Options<'a>>
        ensures { result ≡ own.with_flag self.entry word.now }
    {
        let Options {
            watchdog,
            syncs,
            keeps,
            events,
            waits,
        } = self;
        if word == "--no-sync" {
            if syncs {
                Some(Options {
                    watchdog,
                    syncs: false,
                    keeps,
                    events,
                    waits,
                })
            } else {
                None
            }
        } else if word == "--keep-going" {
            if keeps {
                None
            } else {
                Some(Options {
                    watchdog,
                    syncs,
                    keeps: true,
                    events,
                    waits,
                })
            }
        } else if word == "--events" {
            if events {
                None
            } else {
                Some(Options {
                    watchdog,
                    syncs,
                    keeps,
                    events: true,
                    waits,
                })
            }
        } else {
            None
        }
    }

    /// With one more word.
    fn with_word(self, word: &'a str) -> Option<Options<'a>>
        ensures { result ≡ own.with_word self.entry word.now }
    {
        if self.waits {
            self.with_path(word)
        } else if word == "--watchdog" {
            self.with_watchdog()
        } else {
            self.with_flag(word)
        }
    }

    /// All of them, if none is waited for.
    fn whole(self) -> Option<Options<'a>>
        ensures { result ≡ own.options_from self.entry [] }
    {
        if self.waits { None } else { Some(self) }
    }
}

/// Whether the words are of this form: the third behind `live` names the machine.
pub(crate) fn is_own(words: &[String]) -> bool
    ensures { result ≡ own.is_own (map string_bytes words.now) }
{
    match words {
        [command, _, option, ..] => command.as_str() == "live" && option.as_str() == "--machine",
        _ => false,
    }
}

/// Whether a path begins with a slash.
fn is_rooted(word: &str) -> bool
    ensures { result ≡ own.is_rooted word.now }
{
    match word.as_bytes() {
        [first, ..] => *first == b'/',
        [] => false,
    }
}

/// Whether a word is no option.
fn is_folder(word: &str) -> bool
    ensures { result ≡ own.is_folder word.now }
{
    match word.as_bytes() {
        [first, ..] => *first != b'-',
        [] => true,
    }
}

/// What all of these say.
#[tactic(auto, using(crate::proofs::OwnWordLaws::one_more, crate::proofs::OwnWordLaws::none_more, crate::proofs::OwnWordLaws::none_left))]
fn options_of<'a>(words: &'a [String]) -> Option<Options<'a>>
    ensures { result ≡ own.options_from own.no_options (map string_bytes words.entry.now) }
{
    let mut options = Options::none();
    for word in words {
        options = options.with_word(word.as_str())?;
    }
    options.whole()
}

/// The word of a path, if one is given. An `Err` is want of memory.
fn path_of(alloc: Global, word: Option<&str>) -> Result<Option<Folder>, AllocError>
    ensures { IfOk result (λ path. path ≡ option_map (λ w. w.now) word.entry) }
{
    match word {
        Some(word) => Ok(Some(Folder::new(alloc, word)?)),
        None => Ok(None),
    }
}

/// The number of a machine that a word says, 1 to 16, if it says one.
fn machine_of(word: &str) -> Option<u32>
    ensures exact { result ≡ choose (own.is_machine word.now) (number_of word.now) }
    ensures some { IfSome result (λ machine. 1 ≤ machine) }
{
    let machine = read_number_within(word.as_bytes(), 1, 16)?;
    Some(machine as u32)
}

/// What the words behind `--machine` say, in this folder. An `Err` is want of memory.
fn own_of(
    alloc: Global,
    folder: &str,
    machine: &str,
    words: &[String],
) -> Result<Option<Words>, AllocError>
    ensures exact { IfOk result (λ said. said ≡ own.own_of folder.now machine.now (map string_bytes words.now)) }
    ensures can { IfOk result (λ said. IfSome said CanBeDone) }
{
    if !is_folder(folder) {
        return Ok(None);
    }
    let Some(machine) = machine_of(machine) else {
        return Ok(None);
    };
    let Some(options) = options_of(words) else {
        return Ok(None);
    };
    Ok(Some(Words::Own {
        folder: Folder::new(alloc, folder)?,
        machine,
        watchdog: path_of(alloc, options.watchdog)?,
        syncs: options.syncs,
        keeps: options.keeps,
        events: options.events,
    }))
}

/// What words of this form say, if they say something. An `Err` is want of memory.
pub(crate) fn own_words(alloc: Global, words: &[String]) -> Result<Option<Words>, AllocError>
    ensures exact { IfOk result (λ said. said ≡ own.own_in (map string_bytes words.now)) }
    ensures can { IfOk result (λ said. IfSome said CanBeDone) }
{
    match words {
        [_, folder, _, machine, rest @ ..] => {
            own_of(alloc, folder.as_str(), machine.as_str(), rest)
        }
        _ => Ok(None),
    }
}
