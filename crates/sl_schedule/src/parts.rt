//! The parts of events and of header lines: what a word must be, and what it stands for. Each reader passes the word where it fits; where
//! it doesn't, the reader gives the word's column, and the line stays where it was.

ghost use Rattle.sl_report.specs.EventLines.{is_ok_word};
ghost use Rattle.sl_report.specs.HeaderLines.{is_version_word};
ghost use Rattle.sl_schedule.specs.Reads as reads;
ghost use Rattle.sl_text.specs.Forms.{exactly};
ghost use Rattle.sl_text.specs.Numbers.{capped_long, is_number_that};
ghost use Rattle.sl_text.specs.Walks.{left_after, next_part};
ghost use Rattle.sl_words.specs.Words.{choose};
ghost use Rattle.std.specs.Prelude.{bytes_eq, codes, nat_le, IfOk, IfSome, ◌%◌, ◌<◌, ◌==◌, ◌≡◌, ◌≤◌};

use sl_text::number::{is_multiple, read_number, read_number_within};
use sl_text::same::is_same;
use sl_text::words::Words;

/// The greatest number of a process.
const GREATEST_PROCESS: u64 = 2_000_000;

/// The greatest first reading of a clock, in milliseconds.
const GREATEST_READING: u64 = 999_999_999_999;

/// Whether a line's first word is this verb.
pub fn is_verb(word: &[u8], verb: &[u8]) -> bool
    ensures { result ≡ exactly verb.now word.now }
{
    is_same(verb, word)
}

/// Reads the number of a process, from 1 on; an `Err` is the column of a word that is none.
pub fn next_process(words: &mut Words) -> Result<u32, usize>
    ensures exact { result ≡ next_part reads.process_part words.old }
    ensures left { words.new ≡ left_after result words.old }
{
    let number = words.number_within(1, GREATEST_PROCESS)?;
    Ok(number as u32)
}

/// Reads a number from `low` to `high`.
pub fn next_within(words: &mut Words, low: u32, high: u32) -> Result<u32, usize>
    ensures exact { result ≡ next_part (reads.within_part low high) words.old }
    ensures left { words.new ≡ left_after result words.old }
    ensures within { IfOk result (λ n. (low ≤ n) × (n ≤ high)) }
{
    let number = words.number_within(u64::from(low), u64::from(high))?;
    Ok(number as u32)
}

/// The number above 0 that a word gives, capped at 2^64 - 1, if it gives one.
fn positive_of(word: &[u8]) -> Option<u64>
    ensures exact { result ≡ choose (reads.positive_part.passes word.now) (capped_long word.now) }
    ensures some { IfSome result (λ n. 1 ≤ n) }
{
    read_number(word).filter(|number| 0 < *number)
}

/// Reads a number above 0, capped at 2^64 - 1.
pub fn next_positive(words: &mut Words) -> Result<u64, usize>
    ensures exact { result ≡ next_part reads.positive_part words.old }
    ensures left { words.new ≡ left_after result words.old }
    ensures some { IfOk result (λ n. 1 ≤ n) }
{
    words.accept(words.peek().and_then(positive_of))
}

/// Whether something went well, as a word says it.
fn ok_of(word: &[u8]) -> Option<bool>
    ensures { result ≡ choose (is_ok_word word.now) (bytes_eq word.now (codes "ok")) }
{
    if word == b"ok".as_slice() {
        return Some(true);
    }
    if word == b"failed".as_slice() {
        return Some(false);
    }
    None
}

/// Reads `ok` or `failed`; an `Err` is the column of any other word.
pub fn next_ok(words: &mut Words) -> Result<bool, usize>
    ensures exact { result ≡ next_part reads.ok_part words.old }
    ensures left { words.new ≡ left_after result words.old }
{
    words.accept(words.peek().and_then(ok_of))
}

/// Whether areas have pairs, as the word of a version says it.
fn version_of(word: &[u8]) -> Option<bool>
    ensures { result ≡ choose (is_version_word word.now) (exactly (codes "2") word.now) }
{
    if is_verb(word, b"2") {
        return Some(true);
    }
    if is_verb(word, b"1") {
        return Some(false);
    }
    None
}

/// Reads the version of the language, which says whether blocks have pairs; an `Err` is the column of any other word.
pub fn next_version(words: &mut Words) -> Result<bool, usize>
    ensures exact { result ≡ next_part reads.version_part words.old }
    ensures left { words.new ≡ left_after result words.old }
{
    words.accept(words.peek().and_then(version_of))
}

/// The number of bytes that a word gives, if it is no more than a sector has.
fn kept_of(word: &[u8], sector: u32) -> Option<u64>
    ensures { result ≡ choose (is_number_that (λ k. nat_le k sector) word.now) ((reads.kept_part sector).value word.now) }
{
    read_number_within(word, 0, u64::from(sector))
}

/// Reads a number of bytes, up to those of a sector.
pub fn next_kept(words: &mut Words, sector: u32) -> Result<u32, usize>
    ensures exact { result ≡ next_part (reads.kept_part sector) words.old }
    ensures left { words.new ≡ left_after result words.old }
{
    let kept = words.accept(words.peek().and_then(|word| kept_of(word, sector)))?;
    Ok(kept as u32)
}

/// The number that a word gives, capped at 2^64 - 1, if it is a multiple of `step`.
fn multiple_of(word: &[u8], step: u64) -> Option<u64>
    requires { 0 < step }
    ensures { result ≡ choose (is_number_that (λ n. n % step == 0) word.now) (capped_long word.now) }
{
    if is_multiple(word, step) {
        read_number(word)
    } else {
        None
    }
}

/// Reads a multiple of `step`, capped at 2^64 - 1.
pub fn next_multiple(words: &mut Words, step: u64) -> Result<u64, usize>
    requires { 0 < step }
    ensures exact { result ≡ next_part (reads.multiple_part step) words.old }
    ensures left { words.new ≡ left_after result words.old }
{
    words.accept(words.peek().and_then(|word| multiple_of(word, step)))
}

/// The reading of a clock that a word gives, if it is below 10^12.
fn reading_of(word: &[u8]) -> Option<u64>
    ensures { result ≡ choose (reads.reading_part.passes word.now) (reads.reading_part.value word.now) }
{
    read_number_within(word, 0, GREATEST_READING)
}

/// Reads the first reading of a clock.
pub fn next_reading(words: &mut Words) -> Result<u64, usize>
    ensures exact { result ≡ next_part reads.reading_part words.old }
    ensures left { words.new ≡ left_after result words.old }
{
    words.accept(words.peek().and_then(reading_of))
}
