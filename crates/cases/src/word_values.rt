//! Words and numbers of a text.

use crate::told::Told;
use sl_text::number::{read_number, read_short_number};

/// The part with this place, from 0 on, of a text whose parts this character keeps apart.
pub fn part(text: &str, separator: char, place: usize) -> &str {
    text.split(separator).nth(place).unwrap_or("")
}

/// The word with this place, from 0 on.
pub fn word(text: &str, place: usize) -> &str {
    part(text, ' ', place)
}

/// The number that a word is.
pub fn number_of(word: &str) -> u64 {
    read_number(word.as_bytes()).unwrap_or(0)
}

/// The number below 2^32 that a word is.
pub fn short_of(word: &str) -> u32 {
    read_short_number(word.as_bytes()).unwrap_or(0)
}

/// The word with this place, as a number.
pub fn number_at(text: &str, place: usize) -> u64 {
    number_of(word(text, place))
}

/// The word with this place, as a short number.
pub fn short_at(text: &str, place: usize) -> u32 {
    short_of(word(text, place))
}

/// The numbers that these words are, from the word with this place on.
pub fn numbers_from(told: &mut Told, text: &str, place: usize) -> Vec<u64> {
    let mut numbers = Vec::new(told.alloc);
    for word in text.split(' ').skip(place) {
        told.need(numbers.push(number_of(word)).is_ok());
    }
    numbers
}
