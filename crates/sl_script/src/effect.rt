//! An effect of a step, word by word.

ghost use Rattle.sl_world_state.specs.Daemons.{IsSoundOp};
ghost use Rattle.std.specs.Prelude.{IfOk};

use crate::records::record;
use crate::replies::reply;
use sl_text::FilePath;
use sl_text::words::{Parts, Words};
use sl_trace::{End, Grant, JobReply, Mode, Move, Op, ResourceArg, Sent, Signal};

/// A sector call, but for its number.
#[derive(Clone, Copy)]
pub struct Asked {
    pub path: FilePath,
    pub offset: u64,
    pub op: Op,
}

/// A read, spelled `PATH OFFSET SECTORS`; an `Err` is the column of the first word that does not fit.
pub fn read(words: &mut Words<'_>) -> Result<Asked, usize>
    ensures { IfOk result (λ a. IsSoundOp a.op) }
{
    let path = words.path()?;
    let offset = words.number()?;
    let sectors = words.positive_short_number()?;
    Ok(Asked {
        path,
        offset,
        op: Op::ReadSectors { sectors },
    })
}

/// A write, spelled `PATH OFFSET RECORD`; an `Err` is as above.
pub fn write(words: &mut Words<'_>) -> Result<Asked, usize>
    ensures { IfOk result (λ a. IsSoundOp a.op) }
{
    let path = words.path()?;
    let offset = words.number()?;
    let record = record(words)?;
    Ok(Asked {
        path,
        offset,
        op: Op::WriteRecord { record },
    })
}

/// `lockspace:resource:path:offset`
fn resource(words: &mut Words<'_>) -> Result<ResourceArg, usize> {
    let column = words.column();
    let word = words.next_piece().ok_or(column)?;
    let mut parts = Parts::new(word);
    Ok(ResourceArg {
        lockspace: parts.name()?,
        name: parts.name()?,
        path: parts.path()?,
        offset: parts.number()?,
    })
}

/// `PROCESS RESOURCE ex LVER`, or `sh` for `ex`
pub(crate) fn grant(words: &mut Words<'_>) -> Result<Grant, usize> {
    let process = words.positive_short_number()?;
    let resource = resource(words)?;
    let mode = if words.skip(b"sh") {
        Mode::Shared
    } else {
        words.expect(b"ex")?;
        Mode::Exclusive
    };
    let lver = words.number()?;
    Ok(Grant {
        process,
        session: 0,
        lockspace: resource.lockspace,
        resource: resource.name,
        path: resource.path,
        offset: resource.offset,
        mode,
        lver,
        persistent: false,
    })
}

/// An end, spelled `PROCESS RESOURCE`; an `Err` is as above.
pub(crate) fn end(words: &mut Words<'_>) -> Result<End, usize> {
    let process = words.positive_short_number()?;
    let resource = resource(words)?;
    Ok(End {
        process,
        lockspace: resource.lockspace,
        resource: resource.name,
        path: resource.path,
        offset: resource.offset,
    })
}

/// A signal, spelled `PROCESS term` or `PROCESS kill`; an `Err` is as above.
pub(crate) fn signal(words: &mut Words<'_>) -> Result<Sent, usize> {
    let process = words.positive_short_number()?;
    let signal = if words.skip(b"kill") {
        Signal::Kill
    } else {
        words.expect(b"term")?;
        Signal::Term
    };
    Ok(Sent { process, signal })
}

/// `register LOCKSPACE EXPIRY`, `renew LOCKSPACE EXPIRY` or `unregister LOCKSPACE`
pub(crate) fn moved(words: &mut Words<'_>) -> Result<Move, usize> {
    if words.skip(b"register") {
        Ok(Move::Register {
            lockspace: words.name()?,
            expiry: words.number()?,
        })
    } else if words.skip(b"renew") {
        Ok(Move::Renew {
            lockspace: words.name()?,
            expiry: words.number()?,
        })
    } else {
        words.expect(b"unregister")?;
        Ok(Move::Unregister {
            lockspace: words.name()?,
        })
    }
}

/// A reply, spelled `JOB REPLY`; an `Err` is as above.
pub(crate) fn replied(words: &mut Words<'_>) -> Result<JobReply, usize> {
    Ok(JobReply {
        job: words.number()?,
        reply: reply(words)?,
    })
}
