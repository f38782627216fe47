//! What is there before the threads of a machine begin.

ghost use Rattle.sl_live_run.specs.Runs.{IsFresh};
ghost use Rattle.std.specs.Prelude.{[], ◌≡◌};

use sl_book::{Front, Reader, Shelf};
use sl_live_lines::GivenLine;
use sl_live_machine::{Mail, Post};
use sl_live_run::{MACHINE_THREADS, Prepared, Work};
use sl_output::{Front as Pieces, Press, Seat as Writer};
use sl_place::StandingDevices;
use std::alloc::{AllocError, Global};

/// The threads of the process: the machine's, and the script's.
pub(crate) const THREADS: u64 = MACHINE_THREADS + 1;

/// Posts and mails for so many machines, of which the last is the one that runs. An `Err` is want of memory.
pub(crate) fn open_posts<T: Shelf>(
    alloc: Global,
    machines: u32,
    first_job: u64,
    events: bool,
) -> Result<(Vec<Post>, Vec<Mail<T>>), AllocError> {
    let mut posts = Vec::new(alloc);
    let mut mails = Vec::new(alloc);
    for _ in 0..machines {
        posts.reserve(1)?;
        mails.reserve(1)?;
        posts.push_reserved(Post::new(alloc, first_job, events));
        mails.push_reserved(Mail::new(alloc));
    }
    Ok((posts, mails))
}

/// What the machine at this place is to run on, which has read nothing and put nothing out.
pub(crate) fn work_of<V: StandingDevices, O: Press, T: Shelf>(
    ready: Prepared<V>,
    place: u32,
    unread: &Front<T, GivenLine>,
    pieces: &Pieces<O>,
) -> Work<V::Clock, V::Spawner, V::Device, V::Area, O, T>
    requires unread { unread.now ≡ [] }
    ensures site { result.site ≡ ready.site }
    ensures parts { result.parts ≡ ready.parts }
    ensures by { result.reader.by ≡ place }
    ensures fresh { IsFresh result }
{
    let Prepared { site, parts } = ready;
    Work {
        site,
        parts,
        reader: Reader::new(place, unread),
        writer: Writer::new(place, pieces.again()),
    }
}
