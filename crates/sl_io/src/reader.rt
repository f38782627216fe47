//! A source over any reader of std.
ghost use Rattle.std.specs.Prelude.{◌≡◌};
ghost use Rattle.sl_io.specs.Adapters.{reader_faults, reader_of};

use crate::faults::{Failed, FaultCount};
use crate::source::Source;
use std::io::{ErrorKind, Read};

/// Reads what a reader of std gives, as standard input. It tells the bytes left where the reader does: standard input tells none.
#[derive(Drop)]
pub struct ReadSource<R> {
    inner: R,
    faults: FaultCount,
}

impl<R: Read> ReadSource<R> {
    /// A source over the reader, with no fault yet.
    pub fn new(inner: R) -> ReadSource<R>
        ensures inner { reader_of result ≡ inner }
        ensures faults { reader_faults result ≡ 0 }
    {
        ReadSource {
            inner,
            faults: FaultCount::new(),
        }
    }

    /// How many reads have failed so far, but for interrupted ones, which are tried again.
    pub fn faults(&self) -> u64
        ensures { result ≡ reader_faults self.now }
    {
        self.faults.get()
    }
}

impl<R: Read> Source for ReadSource<R> {
    ghost left = { λ s. R.remaining (reader_of s) };

    ghost faults = { reader_faults };

    /// A read that a signal interrupted is tried again; every other error is a fault.
    fn read(&mut self, buffer: &mut [u8]) -> Result<usize, Failed> {
        for _ in 0..u64::MAX {
            match self.inner.read(buffer) {
                Ok(n) => return Ok(n),
                Err(error) if error.kind() == ErrorKind::Interrupted => {}
                Err(_) => return Err(self.faults.raise()),
            }
        }
        Err(self.faults.raise())
    }
}
