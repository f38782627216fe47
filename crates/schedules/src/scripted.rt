//! Schedules whose daemons follow a script (`sl_script`): so a world of many machines is tried without a host, who may do what and what is
//! refused for what.

use crate::outcome::{Outcome, ROOM};
use sl_io::{MemSink, MemSource};
use sl_locks::LvmLocks;
use sl_play::laws::headers::whole_language_may_play;
use sl_play::{Played, play_schedule};
use sl_script::Script;
use std::alloc::{AllocError, Global};

/// The number of a status.
fn code(ended: Played) -> u8 {
    match ended {
        Played::Done => 0,
        Played::Refused => 1,
        Played::ReadFault => 3,
        Played::WriteFault => 4,
        Played::NoMemory => 5,
    }
}

/// What comes of a schedule that scripted daemons play.
pub fn play_scripted(alloc: Global, source: &Vec<u8>) -> Result<Outcome, AllocError> {
    whole_language_may_play();
    let mut source = MemSource::new(source.clone()?, Vec::new(alloc), Vec::new(alloc));
    let mut sink = MemSink::new(alloc, ROOM, Vec::new(alloc), Vec::new(alloc))?;
    let ended = play_schedule::<MemSource, MemSink, Script, LvmLocks>(
        alloc,
        &mut source,
        &mut sink,
    );
    Ok(Outcome {
        code: code(ended),
        output: sink.into_taken(),
    })
}
