//! What is printed of a line: words and numbers, with a space before each.

use std::alloc::{AllocError, Global};
use std::io;

/// What is told, and whether nothing was wanting to it. Who adds to it need not ask whether that went well: it is asked once, in the end.
#[derive(Drop)]
pub struct Told {
    pub alloc: Global,
    pub text: String,
    is_whole: bool,
}

impl Told {
    /// Nothing is told yet, and nothing was wanting.
    pub fn new(alloc: Global) -> Told {
        Told {
            alloc,
            text: String::new(alloc),
            is_whole: true,
        }
    }

    /// The text that was told. An `Err` is that memory, or something else, was wanting for it.
    pub fn whole(&self) -> Result<&str, AllocError> {
        if self.is_whole {
            Ok(self.text.as_str())
        } else {
            Err(AllocError)
        }
    }

    /// Remembers that something was wanting, where this isn't so.
    pub fn need(&mut self, is: bool) {
        if !is {
            self.is_whole = false;
        }
    }

    /// Remembers that something was wanting, where a call of the system failed.
    pub fn done(&mut self, done: io::Result<()>) {
        self.need(done.is_ok());
    }

    /// Adds a piece with nothing before it.
    pub fn end(&mut self, piece: &str) {
        let done = self.text.push_str(piece).is_ok();
        self.need(done);
    }

    /// Adds a space and a word.
    pub fn word(&mut self, word: &str) {
        self.end(" ");
        self.end(word);
    }

    /// Adds a number, with this before it.
    pub fn number_behind(&mut self, before: &str, number: u64) {
        self.end(before);
        let done = write!(self.text, "{number}").is_ok();
        self.need(done);
    }

    /// Adds a space and a number.
    pub fn number(&mut self, number: u64) {
        self.number_behind(" ", number);
    }

    /// Adds a number below 2^32.
    pub fn short(&mut self, number: u32) {
        self.number(u64::from(number));
    }

    /// Adds whether it is.
    pub fn truth(&mut self, is: bool) {
        self.word(if is { "true" } else { "false" });
    }

    /// Adds a word with a number.
    pub fn said(&mut self, word: &str, number: u64) {
        self.word(word);
        self.number(number);
    }

    /// Adds a word with two numbers.
    pub fn said_two(&mut self, word: &str, first: u64, second: u64) {
        self.said(word, first);
        self.number(second);
    }

    /// Adds a number alone, or none.
    pub fn number_or_none(&mut self, number: Option<u64>) {
        match number {
            Some(number) => self.number(number),
            None => self.word("none"),
        }
    }

    /// Adds bytes as text.
    pub fn bytes(&mut self, bytes: &[u8]) {
        self.word(shown(bytes));
    }

    /// Adds bytes as text in quotes.
    pub fn quoted(&mut self, bytes: &[u8]) {
        self.word("'");
        self.end(shown(bytes));
        self.end("'");
    }
}

/// The bytes as text, or `no text` where they are none.
fn shown(bytes: &[u8]) -> &str {
    std::str::from_utf8(bytes).unwrap_or("no text")
}
