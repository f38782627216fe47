//! What a spawner is asked to do.

use sl_text::FilePath;
use sl_trace::Signal;

/// A call of a spawner that reaches a child.
#[derive(Clone, Copy)]
pub enum Act {
    /// A program was to be started under a process number; whether that went well.
    Started {
        process: u32,
        path: FilePath,
        ok: bool,
    },
    /// A signal was to be sent to a child.
    Signalled {
        process: u32,
        signal: Signal,
    },
}
