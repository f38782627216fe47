//! The words of a line, read one by one from the left, and the parts of a word, which colons keep apart.
//!
//! A line is cut at each single space, so between two spaces stands an empty word, and whoever refuses a line names the
//! column of the first word that does not fit, or one past the end where a word is missing. So a reader keeps what is left
//! of the line and the column of the next word, and nothing of what it has passed. A method that reads a word passes it
//! where it fits; where it does not, or where no word is left, the method gives the column, and the reader stays as it was.
//!
//! A line's forms are lists of tests, one for each word. A function that calls these methods one after another with `?`
//! reads one form (`read_each`); one that chooses by `skip` reads the forms that begin with these words (`read_by`). Read
//! from the left so, forms make what they make of the whole line, and fail at the same column
//! (`laws::forms_are_followed_from_the_left`).

ghost use Rattle.std.specs.Prelude.{if◌then◌else◌, length, nat_lt, option_copied, false, IfOk, IsFalse, IsTrue, ◌==◌, ◌≡◌, ◌∷◌, ◌<◌, ◌^◌};
ghost use Rattle.std.specs.Int.{is_in_range};
ghost use Rattle.std.specs.Option.{ok_or};
ghost use Rattle.std.specs.List.{join_with_byte, position};
ghost use Rattle.sl_text.specs.Forms as forms;
ghost use Rattle.sl_text.specs.Numbers as numbers;
ghost use Rattle.sl_text.specs.Walks.{IsCut, at_end, column_past, left_after, next_as, next_passes, past_word, pieces_behind, unread, with_behind, Passed};
ghost use Rattle.sl_words.specs.Words.{first_of_list, some_is};
ghost use Rattle.sl_text.specs.Names.{is_name, is_path};

use crate::hex::read_hex;
use crate::number::{read_number, read_number_within, read_short_number};
use crate::same::begins_with;
use crate::short::{Data, FilePath, Name, NameText, PathText};
use std::marker::Model;

/// Where the first separator stands.
fn position_of(separator: u8, text: &[u8]) -> Option<usize>
    ensures { result ≡ position (λ b. b == separator) text.now }
{
    text.iter().position(|byte| *byte == separator)
}

/// The text up to the first separator, and what stands behind it; nothing where there is no separator.
#[tactic(auto, using(crate::proofs::PieceLaws::cutting))]
pub fn split_piece(separator: u8, text: &[u8]) -> (&[u8], Option<&[u8]>)
    ensures exact { forms.pieces separator text.now ≡ result.0.now ∷ pieces_behind separator (option_copied result.1) }
    ensures found { text.now ≡ with_behind separator result.0.now (option_copied result.1) }
    ensures free { IsTrue (forms.is_free_of separator result.0.now) }
{
    match position_of(separator, text) {
        Some(at) => (&text[..at], Some(text.split_at(at + 1).1)),
        None => (text, None),
    }
}

/// The column behind a word and its separator, if it has one.
fn column_past(column: usize, word: &[u8], rest: Option<&[u8]>) -> usize
    requires { column_past column word.now (option_copied rest) < 2 ^ 64 }
    ensures { result ≡ column_past column word.now (option_copied rest.entry) }
{
    match rest {
        Some(_) => column + word.len() + 1,
        None => column + word.len(),
    }
}

/// Whether there is a word, of so many bytes.
fn is_long(word: Option<&[u8]>, len: usize) -> bool
    ensures { result ≡ some_is (λ w. length w == len) (option_copied word.entry) }
{
    match word {
        Some(word) => word.len() == len,
        None => false,
    }
}

/// The next piece of a text, if one is left, with what stands behind it.
#[derive(Clone, Copy)]
struct Cut<'a> {
    word: Option<&'a [u8]>,
    rest: Option<&'a [u8]>,
}

/// The pieces of a text that separators keep apart, read one by one from the left. Contracts see what is left of them,
/// with the column of the next one. The column and the bytes that are left stay below 2^64 together, so that no column
/// wraps.
#[derive(Drop)]
pub struct Pieces<'a, const SEPARATOR: u8> {
    rest: Option<&'a [u8]>,
    column: usize,
}

impl<'a, const SEPARATOR: u8> Model for Pieces<'a, SEPARATOR> {
    ghost use Rattle.std.specs.Prelude.{length, option_copied, ◌+◌, ◌<◌, ◌^◌};
    ghost use Rattle.sl_text.specs.Walks.{text_left, pieces_behind, Unread};

    ghost Value = { Unread };

    ghost view = { λ r. record { column = r.column; words = pieces_behind SEPARATOR (option_copied r.rest) } };

    ghost invariant = { λ r. r.column + length (text_left (option_copied r.rest)) < 2 ^ 64 };
}

/// The words of a line, which single spaces keep apart; between two spaces stands an empty word.
pub type Words<'a> = Pieces<'a, b' '>;

/// The parts of a word, which colons keep apart.
pub type Parts<'a> = Pieces<'a, b':'>;

impl<'a, const SEPARATOR: u8> Pieces<'a, SEPARATOR> {
    /// A reader at the first piece of the text. A text without a separator is one piece, and so is the empty one.
    pub fn new(text: &'a [u8]) -> Pieces<'a, SEPARATOR>
        ensures { result ≡ unread SEPARATOR text.now }
    {
        Pieces {
            rest: Some(text),
            column: 1,
        }
    }

    /// The column, from 1, of the next piece; one past the end where none is left.
    pub fn column(&self) -> usize
        ensures { result ≡ self.now.column }
    {
        self.column
    }

    /// The next piece, if one is left.
    #[tactic(auto, using(crate::proofs::PieceLaws::going_on))]
    pub fn next_piece(&mut self) -> Option<&'a [u8]>
        ensures word { option_copied result ≡ first_of_list self.old.words }
        ensures left { self.new ≡ past_word self.old }
    {
        let (word, rest) = split_piece(SEPARATOR, self.rest?);
        self.column = column_past(self.column, word, rest);
        self.rest = rest;
        Some(word)
    }

    /// The next piece, which stays the next.
    pub fn peek(&self) -> Option<&'a [u8]>
        ensures { option_copied result ≡ first_of_list self.now.words }
    {
        self.cut().word
    }

    /// The next piece, cut off: it stays the next.
    #[tactic(auto, using(crate::proofs::PieceLaws::going_on))]
    fn cut(&self) -> Cut<'a>
        ensures { IsCut SEPARATOR self.now (option_copied result.word) (option_copied result.rest) }
    {
        match self.rest {
            Some(text) => {
                let (word, rest) = split_piece(SEPARATOR, text);
                Cut {
                    word: Some(word),
                    rest,
                }
            }
            None => Cut {
                word: None,
                rest: None,
            },
        }
    }

    /// Passes the piece that was cut off, if there is one.
    #[tactic(auto, using(crate::proofs::PieceLaws::going_on))]
    fn pass(&mut self, cut: Cut<'a>)
        requires { IsCut SEPARATOR self.old (option_copied cut.word) (option_copied cut.rest) }
        ensures { self.new ≡ past_word self.old }
    {
        if let Some(word) = cut.word {
            self.column = column_past(self.column, word, cut.rest);
            self.rest = cut.rest;
        }
    }

    /// Passes the piece that was cut off, if something was read of it; else gives its column.
    fn accept_cut<T>(&mut self, cut: Cut<'a>, read: Option<T>) -> Result<T, usize>
        requires { IsCut SEPARATOR self.old (option_copied cut.word) (option_copied cut.rest) }
        ensures exact { result ≡ ok_or read self.old.column }
        ensures left { self.new ≡ left_after result self.old }
    {
        let value = read.ok_or(self.column)?;
        self.pass(cut);
        Ok(value)
    }

    /// What is left of the text, separators included.
    #[tactic(auto, using(crate::proofs::PieceLaws::joining))]
    pub fn rest(&self) -> &'a [u8]
        ensures { result.now ≡ join_with_byte SEPARATOR self.now.words }
    {
        match self.rest {
            Some(text) => text,
            None => &[],
        }
    }

    /// Passes the next piece, if something was read of it; else gives its column. With this a caller reads words of its
    /// own: `words.accept(words.peek().and_then(read))`.
    pub fn accept<T>(&mut self, read: Option<T>) -> Result<T, usize>
        ensures exact { result ≡ ok_or read self.old.column }
        ensures left { self.new ≡ left_after result self.old }
    {
        let value = read.ok_or(self.column())?;
        let _ = self.next_piece();
        Ok(value)
    }

    /// Whether what is left begins with this text, as it does where the next piece is it. Most texts that are asked for differ in their first bytes, so
    /// nothing is cut off for them; where it begins so, the next piece is it if it is as long.
    #[tactic(auto, using(crate::proofs::PieceLaws::another_piece, crate::proofs::PieceLaws::same_piece))]
    fn may_be(&self, text: &[u8]) -> bool
        ensures other { IsFalse result → next_passes (forms.exactly text.now) self.now ≡ false }
        ensures same { IsTrue result → next_passes (forms.exactly text.now) self.now ≡ next_passes (λ w. length w == length text.now) self.now }
    {
        match self.rest {
            Some(left) => begins_with(left, text),
            None => false,
        }
    }

    /// Passes the next piece if it is this text, and says whether it was.
    pub fn skip(&mut self, text: &[u8]) -> bool
        ensures exact { result ≡ next_passes (forms.exactly text.now) self.old }
        ensures left { self.new ≡ (if result then past_word self.old else self.old) }
    {
        if !self.may_be(text) {
            return false;
        }
        let cut = self.cut();
        let found = is_long(cut.word, text.len());
        if found {
            self.pass(cut);
        }
        found
    }

    /// Passes the next piece, if it is this text; else gives its column.
    pub fn expect(&mut self, text: &[u8]) -> Result<(), usize>
        ensures exact { result ≡ next_as (forms.exactly text.now) (λ _. tt) self.old }
        ensures left { self.new ≡ left_after result self.old }
        ensures found { IfOk result (Passed (forms.exactly text.now) (λ _. tt) self.old self.new) }
    {
        if self.skip(text) {
            Ok(())
        } else {
            Err(self.column())
        }
    }

    /// Reads the next piece as a name; else gives its column.
    pub fn name(&mut self) -> Result<Name, usize>
        ensures exact { result ≡ next_as is_name (λ w. w) self.old }
        ensures left { self.new ≡ left_after result self.old }
        ensures found { IfOk result (Passed is_name (λ w. w) self.old self.new) }
    {
        let cut = self.cut();
        self.accept_cut(cut, cut.word.and_then(Name::new))
    }

    /// Reads the next piece as a name, where it stands; else gives its column.
    pub fn name_text(&mut self) -> Result<NameText<'a>, usize>
        ensures exact { result ≡ next_as is_name (λ w. w) self.old }
        ensures left { self.new ≡ left_after result self.old }
        ensures found { IfOk result (Passed is_name (λ w. w) self.old self.new) }
    {
        let cut = self.cut();
        self.accept_cut(cut, cut.word.and_then(NameText::new))
    }

    /// Reads the next piece as a path; else gives its column.
    pub fn path(&mut self) -> Result<FilePath, usize>
        ensures exact { result ≡ next_as is_path (λ w. w) self.old }
        ensures left { self.new ≡ left_after result self.old }
        ensures found { IfOk result (Passed is_path (λ w. w) self.old self.new) }
    {
        let cut = self.cut();
        self.accept_cut(cut, cut.word.and_then(FilePath::new))
    }

    /// Reads the next piece as a path, where it stands; else gives its column.
    pub fn path_text(&mut self) -> Result<PathText<'a>, usize>
        ensures exact { result ≡ next_as is_path (λ w. w) self.old }
        ensures left { self.new ≡ left_after result self.old }
        ensures found { IfOk result (Passed is_path (λ w. w) self.old self.new) }
    {
        let cut = self.cut();
        self.accept_cut(cut, cut.word.and_then(PathText::new))
    }

    /// Reads the next piece as a number, capped at 2^64 - 1; else gives its column.
    pub fn number(&mut self) -> Result<u64, usize>
        ensures exact { result ≡ next_as numbers.is_number_text numbers.capped_long self.old }
        ensures left { self.new ≡ left_after result self.old }
        ensures found { IfOk result (Passed numbers.is_number_text numbers.capped_long self.old self.new) }
    {
        let cut = self.cut();
        self.accept_cut(cut, cut.word.and_then(read_number))
    }

    /// Reads the next piece as a number above 0, capped at 2^64 - 1; else gives its column.
    pub fn positive_number(&mut self) -> Result<u64, usize>
        ensures exact { result ≡ next_as (numbers.is_number_that (λ n. nat_lt 0 n)) numbers.capped_long self.old }
        ensures left { self.new ≡ left_after result self.old }
        ensures found { IfOk result (Passed (numbers.is_number_that (λ n. nat_lt 0 n)) numbers.capped_long self.old self.new) }
    {
        let cut = self.cut();
        let read = cut.word.and_then(read_number).filter(|number| 0 < *number);
        self.accept_cut(cut, read)
    }

    /// Reads the next piece as a number above 0, capped at 2^32 - 1; else gives its column.
    pub fn positive_short_number(&mut self) -> Result<u32, usize>
        ensures exact { result ≡ next_as (numbers.is_number_that (λ n. nat_lt 0 n)) numbers.capped_short self.old }
        ensures left { self.new ≡ left_after result self.old }
        ensures found { IfOk result (Passed (numbers.is_number_that (λ n. nat_lt 0 n)) numbers.capped_short self.old self.new) }
    {
        let cut = self.cut();
        let read = cut
            .word
            .and_then(read_short_number)
            .filter(|number| 0 < *number);
        self.accept_cut(cut, read)
    }

    /// Reads the next piece as a number from `low` to `high`; else gives its column.
    pub fn number_within(&mut self, low: u64, high: u64) -> Result<u64, usize>
        ensures exact { result ≡ next_as (numbers.is_number_that (is_in_range low high)) numbers.number_of self.old }
        ensures left { self.new ≡ left_after result self.old }
        ensures found { IfOk result (Passed (numbers.is_number_that (is_in_range low high)) numbers.number_of self.old self.new) }
    {
        let cut = self.cut();
        let read = cut
            .word
            .and_then(|word| read_number_within(word, low, high));
        self.accept_cut(cut, read)
    }

    /// Reads the next piece as the hex digits of 1 to 256 bytes; else gives its column.
    pub fn hex(&mut self) -> Result<Data, usize>
        ensures exact { result ≡ next_as (numbers.is_hex_word 2 512) numbers.hex_bytes self.old }
        ensures left { self.new ≡ left_after result self.old }
        ensures found { IfOk result (Passed (numbers.is_hex_word 2 512) numbers.hex_bytes self.old self.new) }
    {
        let cut = self.cut();
        self.accept_cut(cut, cut.word.and_then(read_hex))
    }

    /// That no piece is left; else gives the column of the next one.
    #[tactic(auto, using(crate::proofs::PieceLaws::some_piece))]
    pub fn finish(&self) -> Result<(), usize>
        ensures { result ≡ at_end self.now }
    {
        match self.rest {
            None => Ok(()),
            Some(_) => Err(self.column),
        }
    }
}
