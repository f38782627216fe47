//! Words, numbers, digits, names.

use crate::told::Told;
use crate::word_values::{number_at, word};
use sl_text::hex::{push_hex, read_hex, read_hex_bytes};
use sl_text::number::{
    is_multiple, push_number, read_number, read_number_within, read_short_number,
};
use sl_text::words::Words;
use sl_text::{FilePath, Name};

/// The next word with its column.
fn next_word(told: &mut Told, words: &mut Words<'_>) {
    told.number(words.column() as u64);
    told.quoted(words.next_piece().unwrap_or(b""));
    told.end(",");
}

/// Each word with its column, and the column behind the last.
pub fn words(told: &mut Told, text: &str) {
    let mut words = Words::new(text.as_bytes());
    for _ in text.split(' ') {
        next_word(told, &mut words);
    }
    told.number(words.column() as u64);
}

/// A number as it is written.
fn written(told: &mut Told, number: u64) {
    let mut text = Vec::new(told.alloc);
    told.need(push_number(&mut text, number).is_ok());
    told.bytes(&text);
}

/// A number as it is written, and as a short one.
fn both_written(told: &mut Told, number: u64, short: u32) {
    written(told, number);
    told.end(", short");
    told.short(short);
}

/// What a word is as a number, and as a short one.
pub fn number(told: &mut Told, text: &str) {
    match (
        read_number(text.as_bytes()),
        read_short_number(text.as_bytes()),
    ) {
        (Some(number), Some(short)) => both_written(told, number, short),
        _ => told.word("none"),
    }
}

/// The number within the bounds that stand in front of it.
pub fn within(told: &mut Told, text: &str) {
    let (low, high) = (number_at(text, 0), number_at(text, 1));
    match read_number_within(word(text, 2).as_bytes(), low, high) {
        Some(number) => written(told, number),
        None => told.word("none"),
    }
}

/// Whether a number is a multiple of the one in front of it.
pub fn multiple(told: &mut Told, text: &str) {
    let step = number_at(text, 0);
    told.truth(0 < step && is_multiple(word(text, 1).as_bytes(), step));
}

/// The hex digits of bytes.
pub fn digits(told: &mut Told, bytes: &[u8]) {
    let mut text = Vec::new(told.alloc);
    told.need(push_hex(&mut text, bytes).is_ok());
    told.bytes(&text);
}

/// How many bytes, and their digits.
fn counted_digits(told: &mut Told, bytes: &[u8]) {
    told.number(bytes.len() as u64);
    told.word("bytes");
    digits(told, bytes);
}

/// The bytes of a word of digits, at most 256.
pub fn hex(told: &mut Told, text: &str) {
    match read_hex(text.as_bytes()) {
        Some(data) => counted_digits(told, data.as_slice()),
        None => told.word("none"),
    }
}

/// The bytes of a word of so many digits at least and at most.
pub fn hex_bytes(told: &mut Told, text: &str) {
    let (low, high) = (number_at(text, 0) as usize, number_at(text, 1) as usize);
    match read_hex_bytes(told.alloc, word(text, 2).as_bytes(), low, high) {
        Ok(Some(bytes)) => counted_digits(told, bytes.as_slice()),
        Ok(None) => told.word("none"),
        Err(_) => told.need(false),
    }
}

/// How many bytes a name has, and the name as it is shown and as it is looked into.
fn name_text(told: &mut Told, name: &Name) {
    told.number(name.as_str().len() as u64);
    let done = write!(told.text, " bytes {name} {name:?}").is_ok();
    told.need(done);
}

/// Whether a word is a name, and the name as it is kept in place.
pub fn name(told: &mut Told, text: &str) {
    match Name::new(text.as_bytes()) {
        Some(name) => name_text(told, &name),
        None => told.word("none"),
    }
}

/// Tells a path as it is kept in place: its length and its characters.
fn path_text(told: &mut Told, path: &FilePath) {
    told.number(path.as_str().len() as u64);
    let done = write!(told.text, " bytes {path} {path:?}").is_ok();
    told.need(done);
}

/// Whether a word is a path, and the path as it is kept in place.
pub fn path(told: &mut Told, text: &str) {
    match FilePath::new(text.as_bytes()) {
        Some(path) => path_text(told, &path),
        None => told.word("none"),
    }
}

/// Whether a name comes before another, where these are names.
fn is_name_before(first: &[u8], second: &[u8]) -> Option<bool> {
    let (first, second) = (Name::new(first)?, Name::new(second)?);
    Some(first.is_before(&second))
}

/// Whether a path comes before another, where these are paths.
fn is_path_before(first: &[u8], second: &[u8]) -> Option<bool> {
    let (first, second) = (FilePath::new(first)?, FilePath::new(second)?);
    Some(first.is_before(&second))
}

/// A word, and whether it is.
fn truth_of(told: &mut Told, word: &str, is: bool) {
    told.word(word);
    told.truth(is);
}

/// Whether the first of two words comes before the second, as names or as paths.
pub fn before(told: &mut Told, text: &str) {
    let (first, second) = (word(text, 0).as_bytes(), word(text, 1).as_bytes());
    match (is_name_before(first, second), is_path_before(first, second)) {
        (Some(is), _) => truth_of(told, "name", is),
        (None, Some(is)) => truth_of(told, "path", is),
        (None, None) => told.word("none"),
    }
}
