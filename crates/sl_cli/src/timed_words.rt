//! The words of a lockspace that is given a label: `direct init -t TIMES`, and then what a lockspace without one is given.
//!
//! The parser is given what is left without the times.

ghost use Rattle.sl_cli.specs.CommandWords as words_of;
ghost use Rattle.sl_cli.specs.CommandWords.{command_in, labelled, timed_in};
ghost use Rattle.sl_cli.specs.Spellings.{CanBeDone};
ghost use Rattle.sl_cli.specs.declared.command_words.Words.TheVariants.{Direct};
ghost use Rattle.sl_cli.specs.declared.command_words.WordsError.TheVariants.{Bad};
ghost use Rattle.sl_direct.specs.Actions.{IsAction};
ghost use Rattle.std.specs.Prelude.{Err, IfOk, IfSome, None, OnOk, Some, map, string_bytes, ◌++◌, ◌∷◌, ◌≡◌};

use crate::command_words::{Words, WordsError, plain_words};
use crate::times::times_of;
use sl_direct::Action;
use std::alloc::{AllocError, Global};

/// Whether the words are of this form.
pub(crate) fn is_timed(words: &[String]) -> bool
    ensures { result ≡ words_of.is_timed (map string_bytes words.now) }
{
    match words {
        [command, action, option, ..] => {
            command.as_str() == "direct" && action.as_str() == "init" && option.as_str() == "-t"
        }
        _ => false,
    }
}

/// Adds copies of these words. An `Err` is want of memory.
fn push_copies(alloc: Global, words: &[String], copies: &mut Vec<String>) -> Result<(), AllocError>
    ensures { OnOk result (map string_bytes copies.new.items ≡ map string_bytes copies.old.items ++ map string_bytes words.now) }
{
    for word in words {
        copies.push(String::from_str(alloc, word.as_str())?)?;
    }
    Ok(())
}

/// The words without the times. An `Err` is want of memory.
fn untimed(
    alloc: Global,
    command: &String,
    action: &String,
    rest: &[String],
) -> Result<Vec<String>, AllocError>
    ensures { IfOk result (λ words. map string_bytes words.items ≡ string_bytes command.now ∷ string_bytes action.now ∷ map string_bytes rest.now) }
{
    let mut words = Vec::new(alloc);
    words.push(String::from_str(alloc, command.as_str())?)?;
    words.push(String::from_str(alloc, action.as_str())?)?;
    push_copies(alloc, rest, &mut words)?;
    Ok(words)
}

/// What an action that was read says with a label of these times: a lockspace is made with one, and nothing else.
fn label_of(action: Action, times: &str) -> Option<Words>
    requires { IsAction action }
    ensures exact { result ≡ labelled times.now (Some (Direct action)) }
    ensures can { IfSome result CanBeDone }
{
    match action {
        Action::InitLockspace {
            lockspace,
            geometry,
        } => {
            let times = times_of(times)?;
            Some(Words::Label {
                lockspace,
                geometry,
                timing: times.timing,
                grace: times.grace,
            })
        }
        Action::InitLabelled { .. } => None,
        Action::InitResource { .. } => None,
        Action::ReadLeader { .. } => None,
        Action::Upgrade { .. } => None,
        Action::Dump { .. } => None,
    }
}

/// What words say that were read, with a label of these times.
fn with_label(words: Words, times: &str) -> Option<Words>
    requires { CanBeDone words }
    ensures exact { result ≡ labelled times.now (Some words) }
    ensures can { IfSome result CanBeDone }
{
    match words {
        Words::Direct(action) => label_of(action, times),
        Words::Replay => None,
        Words::Draw { .. } => None,
        Words::Generate { .. } => None,
        Words::Schedule { .. } => None,
        Words::Label { .. } => None,
        Words::Live { .. } => None,
        Words::Own { .. } => None,
        Words::Help => None,
        Words::Version => None,
    }
}

/// What words without the times say. `Bad` comes exactly where they say nothing; in place of either may come `NoMemory`.
fn untimed_words(
    alloc: Global,
    command: &String,
    action: &String,
    rest: &[String],
) -> Result<Words, WordsError>
    ensures read { IfOk result (λ w. command_in (string_bytes command.now ∷ string_bytes action.now ∷ map string_bytes rest.now) ≡ Some w) }
    ensures bad { result ≡ Err Bad → command_in (string_bytes command.now ∷ string_bytes action.now ∷ map string_bytes rest.now) ≡ None }
    ensures can { IfOk result CanBeDone }
{
    let left = untimed(alloc, command, action, rest)?;
    plain_words(alloc, &left)
}

/// What they say with a label of these times. `Bad` comes exactly where they say nothing; in place of either may come `NoMemory`.
fn labelled_words(
    alloc: Global,
    command: &String,
    action: &String,
    times: &str,
    rest: &[String],
) -> Result<Words, WordsError>
    ensures read { IfOk result (λ w. labelled times.now (command_in (string_bytes command.now ∷ string_bytes action.now ∷ map string_bytes rest.now)) ≡ Some w) }
    ensures bad { result ≡ Err Bad → labelled times.now (command_in (string_bytes command.now ∷ string_bytes action.now ∷ map string_bytes rest.now)) ≡ None }
    ensures can { IfOk result CanBeDone }
{
    let said = untimed_words(alloc, command, action, rest)?;
    match with_label(said, times) {
        Some(words) => Ok(words),
        None => Err(WordsError::Bad),
    }
}

/// What words of this form say. `Bad` comes exactly where they say nothing; in place of either may come `NoMemory`.
pub(crate) fn timed_words(alloc: Global, words: &[String]) -> Result<Words, WordsError>
    ensures read { IfOk result (λ w. timed_in (map string_bytes words.now) ≡ Some w) }
    ensures bad { result ≡ Err Bad → timed_in (map string_bytes words.now) ≡ None }
    ensures can { IfOk result CanBeDone }
{
    match words {
        [command, action, _, times, rest @ ..] => {
            labelled_words(alloc, command, action, times.as_str(), rest)
        }
        _ => Err(WordsError::Bad),
    }
}
