//! A turn of the locks: what comes, and what goes.

use sl_text::Bytes;
use sl_trace::Reply;

/// What comes to the locks of a machine: a line, the host's reply to the last ask, or that lvmlockd has ended.
#[derive(Drop)]
pub enum LvmIn {
    Line(Bytes),
    Reply(Reply),
    Ended,
}

/// What they do: they ask the host, or reply to the line, or nothing.
#[derive(Drop)]
pub enum LvmOut {
    Ask(Bytes),
    Reply(Bytes),
    Quiet,
}
