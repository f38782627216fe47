//! Bytes as hex digits, two for each byte, in lower case.

ghost use Rattle.std.specs.Char.{digit_char, digit_value};
ghost use Rattle.std.specs.List.{list_all};
ghost use Rattle.std.specs.Prelude.{length, true, vec_capacity, vec_len, IfOk, IfSome, OnErr, OnOk, ◌%◌, ◌*◌, ◌+◌, ◌++◌, ◌/◌, ◌<◌, ◌≡◌, ◌≤◌};
ghost use Rattle.sl_text.specs.Numbers as numbers;
ghost use Rattle.sl_words.specs.Words.{choose};

use crate::bytes::Bytes;
use crate::short::Data;
use std::alloc::{AllocError, Global};

/// The digit that stands for a number below 16.
fn digit_of(number: u8) -> u8
    requires { number < 16 }
    ensures { result ≡ digit_char number }
{
    if number < 10 {
        b'0' + number
    } else {
        b'a' - 10 + number
    }
}

/// Writes the digits of the bytes to the end of a text. After an `Err` the text is as it was.
pub fn push_hex(out: &mut Vec<u8>, bytes: &[u8]) -> Result<(), AllocError>
    ensures ok { OnOk result (out.new.items ≡ out.old.items ++ numbers.hex_text bytes.now) }
    ensures err { OnErr result (out.new.items ≡ out.old.items) }
    ensures full { OnErr result (vec_capacity out.old < vec_len out.old + 2 * length bytes.now) }
{
    out.reserve(2 * bytes.len())?;
    for byte in bytes {
        let digits = [digit_of(*byte / 16), digit_of(*byte % 16)];
        match out.extend_from_slice(&digits) {
            Ok(()) => {}
            Err(_) => unreachable!(),
        }
    }
    Ok(())
}

/// Whether the byte is a digit, in lower case.
fn is_digit(byte: u8) -> bool
    ensures { result ≡ numbers.is_hex_digit byte }
{
    matches!(byte, b'0'..=b'9' | b'a'..=b'f')
}

/// Whether each byte is a digit, in lower case.
fn are_digits(word: &[u8]) -> bool
    ensures { result ≡ list_all numbers.is_hex_digit word.now }
{
    word.iter().all(|byte| is_digit(*byte))
}

/// Whether the word has an even number of digits, from `low` to `high`.
pub fn is_hex(word: &[u8], low: usize, high: usize) -> bool
    ensures { result ≡ numbers.is_hex_word low high word.now }
{
    low <= word.len() && word.len() <= high && word.len() % 2 == 0 && are_digits(word)
}

/// The number that a digit stands for.
fn value_of(digit: u8) -> u8
    requires { numbers.is_hex_digit digit ≡ true }
    ensures value { result ≡ digit_value digit }
    ensures small { result < 16 }
{
    if digit <= b'9' {
        digit - b'0'
    } else {
        digit - b'a' + 10
    }
}

/// Writes the bytes that the digits stand for over `out`, which has room for just these.
#[tactic(auto, using(crate::proofs::HexLaws::reading))]
fn decode(word: &[u8], out: &mut [u8])
    requires digits { list_all numbers.is_hex_digit word.now ≡ true }
    requires size { length word.now ≡ 2 * length out.old }
    ensures { out.new ≡ numbers.hex_bytes word.now }
{
    for (index, byte) in out.iter_mut().enumerate() {
        *byte = 16 * value_of(word[2 * index]) + value_of(word[2 * index + 1]);
    }
}

/// The bytes that the digits stand for, written over `out`, which has room for just these.
fn data_in(word: &[u8], out: &mut [u8]) -> Data
    requires digits { list_all numbers.is_hex_digit word.now ≡ true }
    requires size { length word.now ≡ 2 * length out.old }
    requires few { length out.old ≤ 256 }
    ensures { result ≡ numbers.hex_bytes word.now }
{
    decode(word, out);
    match Data::new(out) {
        Some(data) => data,
        None => unreachable!(),
    }
}

/// The bytes that a word of at most 512 digits stands for.
fn data_of(word: &[u8]) -> Data
    requires digits { list_all numbers.is_hex_digit word.now ≡ true }
    requires even { length word.now ≡ 2 * (length word.now / 2) }
    requires few { length word.now ≤ 512 }
    ensures { result ≡ numbers.hex_bytes word.now }
{
    let mut bytes = [0; 256];
    data_in(word, &mut bytes[..word.len() / 2])
}

/// The bytes that a word stands for, if it has 2 to 512 digits, an even number.
#[tactic(auto, using(crate::proofs::HexLaws::hex_text_read, crate::proofs::HexLaws::hex_word_size))]
pub fn read_hex(word: &[u8]) -> Option<Data>
    ensures exact { result ≡ choose (numbers.is_hex_word 2 512 word.now) (numbers.hex_bytes word.now) }
    // The word is the one text of these bytes.
    ensures found { IfSome result (λ bytes. word.now ≡ numbers.hex_text bytes) }
{
    if is_hex(word, 2, 512) {
        Some(data_of(word))
    } else {
        None
    }
}

/// The bytes that a hex word stands for.
fn bytes_of(alloc: Global, word: &[u8]) -> Result<Bytes, AllocError>
    requires digits { list_all numbers.is_hex_digit word.now ≡ true }
    requires even { length word.now ≡ 2 * (length word.now / 2) }
    ensures { IfOk result (λ bytes. bytes ≡ numbers.hex_bytes word.now) }
{
    let mut bytes = vec![in alloc; 0; word.len() / 2]?;
    decode(word, &mut bytes);
    Ok(Bytes::new(bytes))
}

/// The bytes that a word stands for, if it has an even number of digits from `low` to `high`. An `Err` is want of memory.
#[tactic(auto, using(crate::proofs::HexLaws::hex_text_read, crate::proofs::HexLaws::hex_word_size))]
pub fn read_hex_bytes(
    alloc: Global,
    word: &[u8],
    low: usize,
    high: usize,
) -> Result<Option<Bytes>, AllocError>
    ensures exact { IfOk result (λ bytes. bytes ≡ choose (numbers.is_hex_word low high word.now) (numbers.hex_bytes word.now)) }
    // The word is the one text of these bytes.
    ensures found { IfOk result (λ read. IfSome read (λ bytes. word.now ≡ numbers.hex_text bytes)) }
{
    if is_hex(word, low, high) {
        Ok(Some(bytes_of(alloc, word)?))
    } else {
        Ok(None)
    }
}
