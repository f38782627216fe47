//! Numbers that are open, each with the entry that opened it.

ghost use Rattle.sl_live_lines.specs.AuditedHistory.{opened_at};
ghost use Rattle.sl_words.specs.Words.{some_is};
ghost use Rattle.std.specs.Prelude.{IfNone, IfSome, None, OnOk, Some, cond, ℕ, ◌==◌, ◌≡◌};

use indexmap::IndexMap;
use std::alloc::{AllocError, Global};

/// Numbers that are open, each with the number of the entry that opened it last.
#[derive(Drop)]
pub(crate) struct Open {
    entries: IndexMap<u64, u64>,
}

impl Open {
    /// No number is open. It takes no memory.
    pub(crate) fn new(alloc: Global) -> Open
        ensures { (n : ℕ) → opened_at result n ≡ None }
    {
        Open {
            entries: IndexMap::new(alloc),
        }
    }

    /// Opens a number at this entry. An `Err` is want of memory.
    pub(crate) fn open(&mut self, number: u64, entry: u64) -> Result<(), AllocError>
        ensures { OnOk result ((n : ℕ) → opened_at self.new n ≡ cond (number == n) (Some entry) (opened_at self.old n)) }
    {
        self.entries.insert(number, entry)?;
        Ok(())
    }

    /// Closes this number, if there is one.
    pub(crate) fn close(&mut self, closed: Option<u64>)
        ensures { (n : ℕ) → opened_at self.new n ≡ cond (some_is (λ k. k == n) closed) None (opened_at self.old n) }
    {
        if let Some(number) = closed {
            self.entries.swap_remove(&number);
        }
    }

    /// One that is open, with the entry that opened it.
    pub(crate) fn first(&self) -> Option<(u64, u64)>
        ensures some { IfSome result (λ p. opened_at self.now p.0 ≡ Some p.1) }
        ensures none { IfNone result ((n : ℕ) → opened_at self.now n ≡ None) }
    {
        match self.entries.get_index(0) {
            Some((number, entry)) => Some((*number, *entry)),
            None => None,
        }
    }
}
