//! A sink over any writer of std.
ghost use Rattle.std.specs.Io.KnownBytes.{Keeps};
ghost use Rattle.std.specs.Prelude.{◌≡◌};
ghost use Rattle.sl_io.specs.Adapters.{writer_faults, writer_of};
ghost use Rattle.sl_io.specs.FaultCauses.{HasCause};

use crate::faults::{Failed, FaultCount};
use crate::sink::Sink;
use std::io::{ErrorKind, Write};

/// Writes to a writer of std, as standard output. It tells the bytes taken where the writer does: standard output tells none.
///
/// A writer with a buffer of its own, as `BufWriter`, has let its bytes go only when `flush` has answered Ok.
#[derive(Drop)]
pub struct WriteSink<W> {
    inner: W,
    faults: FaultCount,
}

impl<W: Write> WriteSink<W> {
    /// A sink over the writer, with no fault yet.
    pub fn new(inner: W) -> WriteSink<W>
        ensures inner { writer_of result ≡ inner }
        ensures faults { writer_faults result ≡ 0 }
    {
        WriteSink {
            inner,
            faults: FaultCount::new(),
        }
    }

    /// How many writes and flushes have failed so far, but for interrupted ones, which are tried again.
    pub fn faults(&self) -> u64
        ensures { result ≡ writer_faults self.now }
    {
        self.faults.get()
    }

    /// Asks the writer to let go of the bytes that it holds back. A flush that a signal interrupted is tried again. That the bytes then
    /// reach the outside is the writer's own promise: std has no clause for it.
    pub fn flush(&mut self) -> Result<(), Failed>
        ensures bytes { Keeps (W.contents (writer_of self.old)) (W.contents (writer_of self.new)) }
        ensures cause { HasCause (writer_faults self.old) (writer_faults self.new) result }
    {
        for _ in 0..u64::MAX {
            match self.inner.flush() {
                Ok(()) => return Ok(()),
                Err(error) if error.kind() == ErrorKind::Interrupted => {}
                Err(_) => return Err(self.faults.raise()),
            }
        }
        Err(self.faults.raise())
    }
}

impl<W: Write> Sink for WriteSink<W> {
    ghost taken = { λ s. W.contents (writer_of s) };

    ghost faults = { writer_faults };

    /// A write that a signal interrupted is tried again; every other error is a fault, and so is a write that takes no byte of a piece
    /// that has one.
    fn write(&mut self, piece: &[u8]) -> Result<usize, Failed> {
        for _ in 0..u64::MAX {
            match self.inner.write(piece) {
                Ok(0) if !piece.is_empty() => return Err(self.faults.raise()),
                Ok(n) => return Ok(n),
                Err(error) if error.kind() == ErrorKind::Interrupted => {}
                Err(_) => return Err(self.faults.raise()),
            }
        }
        Err(self.faults.raise())
    }
}
