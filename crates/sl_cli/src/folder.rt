//! The folder of a live run.

ghost use Rattle.std.specs.Prelude.{IfOk, ◌≡◌};

use std::alloc::{AllocError, Global};
use std::marker::Model;

/// A word that names a folder, whatever it is. Contracts see its bytes.
#[derive(Drop)]
pub struct Folder {
    word: String,
}

impl Model for Folder {
    ghost use Rattle.std.specs.Prelude.{List, string_bytes, ℕ};

    ghost Value = { List ℕ };

    ghost view = { λ f. string_bytes f.word };
}

impl Folder {
    /// This word. An `Err` is want of memory.
    pub fn new(alloc: Global, word: &str) -> Result<Folder, AllocError>
        ensures { IfOk result (λ f. f ≡ word.now) }
    {
        Ok(Folder {
            word: String::from_str(alloc, word)?,
        })
    }

    /// The word.
    pub fn as_str(&self) -> &str
        ensures { result.now ≡ self.now }
    {
        self.word.as_str()
    }
}
