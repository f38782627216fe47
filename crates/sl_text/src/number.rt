//! Decimal numbers, read from a word and written to the end of a text.
//!
//! A number has one spelling: digits without a sign and without a leading zero. A word may have any number of digits;
//! where its number is past the end of its type, a reader says so or answers the type's end.

ghost use Rattle.std.specs.Char.{digit_value, is_ascii_digit};
ghost use Rattle.std.specs.Int.{is_in_range};
ghost use Rattle.std.specs.List.{list_all};
ghost use Rattle.std.specs.Prelude.{true, decimal, length, vec_capacity, vec_len, min, nat_lt, IsTrue, IfSome, OnOk, OnErr, ◌≡◌, ◌^◌, ◌+◌, ◌*◌, ◌-◌, ◌<◌, ◌++◌, ◌&&◌, ◌==◌, ◌%◌, ◌≤◌};
ghost use Rattle.sl_words.specs.Words.{choose};
ghost use Rattle.sl_text.specs.Numbers as numbers;

use itoa::Buffer;
use std::alloc::AllocError;

/// Whether each byte is a digit.
fn are_digits(word: &[u8]) -> bool
    ensures { result ≡ list_all is_ascii_digit word.now }
{
    word.iter().all(|byte| byte.is_ascii_digit())
}

/// Whether the word is a number: digits, and no leading zero.
pub fn is_number(word: &[u8]) -> bool
    ensures { result ≡ numbers.is_number_text word.now }
{
    match word.split_first() {
        Some((first, rest)) => are_digits(word) && (*first != b'0' || rest.is_empty()),
        None => false,
    }
}

/// The number that a digit stands for.
fn digit_of(byte: u8) -> u8
    requires { is_ascii_digit byte ≡ true }
    ensures { result ≡ digit_value byte }
{
    byte - b'0'
}

/// The number with one more digit, if it is below 2^64.
fn with_digit(value: u64, digit: u8) -> Option<u64>
    ensures { result ≡ choose (nat_lt (value * 10 + digit) (2 ^ 64)) (value * 10 + digit) }
{
    value.checked_mul(10)?.checked_add(u64::from(digit))
}

/// The number that the digits write, if it is below 2^64.
#[tactic(auto, using(crate::proofs::NumberLaws::reading))]
fn value_of(digits: &[u8]) -> Option<u64>
    requires { list_all is_ascii_digit digits.now ≡ true }
    ensures { result ≡ choose (nat_lt (numbers.number_of digits.now) (2 ^ 64)) (numbers.number_of digits.now) }
{
    let mut value: u64 = 0;
    for byte in digits {
        value = with_digit(value, digit_of(*byte))?;
    }
    Some(value)
}

/// The number that a word writes, or the end of its type, 2^64 - 1, where the number is above it; None where the word is
/// no number.
pub fn read_number(word: &[u8]) -> Option<u64>
    ensures exact { result ≡ choose (numbers.is_number_text word.now) (numbers.capped_long word.now) }
    // What is read is a number's text, and its number where that is below 2^64.
    ensures found { IfSome result (λ n. IsTrue (numbers.is_number_text word.now) × (n ≡ min (numbers.number_of word.now) (2 ^ 64 - 1))) }
{
    if !is_number(word) {
        return None;
    }
    Some(value_of(word).unwrap_or(u64::MAX))
}

/// The number that a word writes, or 2^32 - 1 where the number is above it; None where the word is no number.
pub fn read_short_number(word: &[u8]) -> Option<u32>
    ensures exact { result ≡ choose (numbers.is_number_text word.now) (numbers.capped_short word.now) }
    ensures found { IfSome result (λ n. IsTrue (numbers.is_number_text word.now) × (n ≡ min (numbers.number_of word.now) (2 ^ 32 - 1))) }
{
    let number = read_number(word)?;
    Some(u32::try_from(number).unwrap_or(u32::MAX))
}

/// The number that a word writes, if the word is a number from `low` to `high`.
pub fn read_number_within(word: &[u8], low: u64, high: u64) -> Option<u64>
    ensures exact { result ≡ choose (numbers.is_number_that (is_in_range low high) word.now) (numbers.number_of word.now) }
    ensures found { IfSome result (λ n. IsTrue (numbers.is_number_text word.now) × (n ≡ numbers.number_of word.now) × (low ≤ n) × (n ≤ high)) }
{
    if !is_number(word) {
        return None;
    }
    value_of(word).filter(|number| low <= *number && *number <= high)
}

/// The number with one more digit, divided by `step`: what is left.
fn remainder_with_digit(remainder: u64, digit: u8, step: u64) -> u64
    requires step { 0 < step }
    requires digit { digit < 10 }
    requires remainder { remainder < step }
    ensures { result ≡ (remainder * 10 + digit) % step }
{
    ((u128::from(remainder) * 10 + u128::from(digit)) % u128::from(step)) as u64
}

/// What is left of the number that the digits write when it is divided by `step`.
#[tactic(auto, using(crate::proofs::NumberLaws::dividing))]
fn remainder_of(digits: &[u8], step: u64) -> u64
    requires digits { list_all is_ascii_digit digits.now ≡ true }
    requires step { 0 < step }
    ensures { result ≡ numbers.number_of digits.now % step }
{
    let mut remainder = 0;
    for byte in digits {
        remainder = remainder_with_digit(remainder, digit_of(*byte), step);
    }
    remainder
}

/// Whether the word writes a multiple of `step`, however great.
pub fn is_multiple(word: &[u8], step: u64) -> bool
    requires { 0 < step }
    ensures { result ≡ numbers.is_number_that (λ n. n % step == 0) word.now }
{
    is_number(word) && remainder_of(word, step) == 0
}

/// Writes the number to the end of a text. After an `Err` the text is as it was.
#[tactic(auto, using(crate::proofs::NumberLaws::one_digit))]
pub fn push_number(out: &mut Vec<u8>, number: u64) -> Result<(), AllocError>
    ensures ok { OnOk result (out.new.items ≡ out.old.items ++ decimal number) }
    ensures err { OnErr result (out.new.items ≡ out.old.items) }
    ensures full { OnErr result (vec_capacity out.old < vec_len out.old + length (decimal number)) }
{
    // Most numbers of a report have one digit.
    if number < 10 {
        out.push(b'0' + number as u8)?;
        return Ok(());
    }
    let mut digits = Buffer::new();
    out.extend_from_slice(digits.format(number).as_bytes())
}
