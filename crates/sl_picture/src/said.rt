//! The words of a line of a schedule or of a report.

ghost use Rattle.sl_picture.specs.Said as said;
ghost use Rattle.sl_text.specs.Walks.{past_word};
ghost use Rattle.std.specs.Prelude.{OnOk, bytes_eq, ◌++◌, ◌≡◌};

use sl_text::number::read_number;
use sl_text::words::{Parts, Words};
use std::alloc::AllocError;

/// The words of a line behind its first so many.
pub(crate) fn words_behind(line: &[u8], count: u32) -> Words<'_>
    ensures { result.words ≡ said.words_behind line.now count }
{
    let mut words = Words::new(line);
    for _ in 0..count {
        let _ = words.next_piece();
    }
    words
}

/// The next word, which is passed; empty where none is left.
pub(crate) fn next_word<'a>(words: &mut Words<'a>) -> &'a [u8]
    ensures word { result.now ≡ said.first_word words.old.words }
    ensures left { words.new ≡ past_word words.old }
{
    match words.next_piece() {
        Some(word) => word,
        None => b"",
    }
}

/// A word of a line, counted from 0; empty where there is none.
pub(crate) fn word_at(line: &[u8], place: u32) -> &[u8]
    ensures { result.now ≡ said.word_at line.now place }
{
    let mut words = words_behind(line, place);
    next_word(&mut words)
}

/// What stands behind the first so many words of a line.
pub(crate) fn text_behind(line: &[u8], count: u32) -> &[u8]
    ensures { result.now ≡ said.text_behind line.now count }
{
    words_behind(line, count).rest()
}

/// Whether a word is this text.
pub(crate) fn is(word: &[u8], text: &[u8]) -> bool
    ensures { result ≡ bytes_eq word.now text.now }
{
    word == text
}

/// The number that a word is; 0 where it is none.
pub(crate) fn number_in(word: &[u8]) -> u64
    ensures { result ≡ said.number_in word.now }
{
    match read_number(word) {
        Some(number) => number,
        None => 0,
    }
}

/// The number that a word of a line is; 0 where it is none.
pub(crate) fn number_at(line: &[u8], place: u32) -> u64
    ensures { result ≡ said.number_at line.now place }
{
    number_in(word_at(line, place))
}

/// What stands behind the first colon of a word; nothing where it has none.
pub(crate) fn behind_colon(word: &[u8]) -> &[u8]
    ensures { result.now ≡ said.behind_colon word.now }
{
    let mut parts = Parts::new(word);
    let _ = parts.next_piece();
    parts.rest()
}

/// The first part of a word that colons cut, and empty where the word is.
fn first_part(word: &[u8]) -> &[u8]
    ensures { result.now ≡ said.first_part word.now }
{
    let mut parts = Parts::new(word);
    match parts.next_piece() {
        Some(part) => part,
        None => b"",
    }
}

/// Adds the first two parts of a word, with a colon between them: of a resource's spelling its lockspace and its name.
pub(crate) fn push_two_parts(out: &mut Vec<u8>, word: &[u8]) -> Result<(), AllocError>
    ensures { OnOk result (out.new.items ≡ out.old.items ++ said.two_parts word.now) }
{
    out.extend_from_slice(first_part(word))?;
    out.extend_from_slice(b":")?;
    out.extend_from_slice(first_part(behind_colon(word)))
}
