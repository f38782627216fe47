//! Copies of replies that can't fail.

ghost use Rattle.sl_cell.specs.Copies.{AreShort, lists_in, sessions_in, states_in};
ghost use Rattle.sl_cell.specs.CopyRoom.{HasRoom};
ghost use Rattle.std.specs.Prelude.{length, vec_capacity, vec_len, OnOk, [], ℕ, ◌<◌, ◌≡◌, ◌≤◌};

use crate::copies::Blank;
use sl_text::Seq;
use sl_trace::{JobReply, Reply, SessionOf, StateOf, copy_plain};
use std::alloc::{AllocError, Global};

/// Memory for the replies of a step, of which at most one has a list.
#[derive(Drop)]
pub(crate) struct Blanks {
    replies: Blank<JobReply>,
    states: Blank<StateOf>,
    sessions: Blank<SessionOf>,
}

impl Blanks {
    /// Room for copies of no reply. It takes no memory.
    pub(crate) fn new(alloc: Global) -> Blanks {
        Blanks {
            replies: Blank::new(alloc),
            states: Blank::new(alloc),
            sessions: Blank::new(alloc),
        }
    }

    /// Sees that it is for so many replies at least, with a list of so many elements. An `Err` is want of memory.
    pub(crate) fn reserve(&mut self, replies: usize, longest: usize) -> Result<(), AllocError>
        ensures { OnOk result (HasRoom replies longest self.new) }
    {
        self.replies.reserve(replies)?;
        self.states.reserve(longest)?;
        self.sessions.reserve(longest)
    }

    /// A copy of these replies, in room that was taken for it before.
    pub(crate) fn copy(&mut self, alloc: Global, replies: &[JobReply]) -> Seq<JobReply>
        requires { (longest : ℕ) × HasRoom (length replies.now) longest self.old × AreShort longest replies.now }
        ensures { result ≡ replies.now }
    {
        let mut copies = self.room_for(alloc, replies.len());
        for told in replies {
            let reply = copied_reply(alloc, &mut self.states, &mut self.sessions, &told.reply);
            copies.push_reserved(JobReply {
                job: told.job,
                reply,
            });
        }
        Seq::new(copies)
    }

    /// Memory for so many.
    fn room_for(&mut self, alloc: Global, count: usize) -> Vec<JobReply>
        requires { count ≤ self.old.replies }
        ensures items { result.items ≡ [] }
        ensures len { vec_len result ≡ 0 }
        ensures room { count ≤ vec_capacity result }
        ensures states { self.new.states ≡ self.old.states }
        ensures sessions { self.new.sessions ≡ self.old.sessions }
    {
        match Vec::with_capacity(alloc, count) {
            Ok(room) => room,
            Err(_) => self.replies.take(alloc),
        }
    }
}

/// A copy of a reply, whose list is in this memory where there is no other.
fn copied_reply(
    alloc: Global,
    states: &mut Blank<StateOf>,
    sessions: &mut Blank<SessionOf>,
    reply: &Reply,
) -> Reply
    requires states { length (states_in reply.now) ≤ states.old }
    requires sessions { length (sessions_in reply.now) ≤ sessions.old }
    ensures copy { result ≡ reply.now }
    ensures left { lists_in reply.now ≡ 0 → (states.new ≡ states.old) × (sessions.new ≡ sessions.old) }
{
    match reply {
        Reply::Hosts(seen) => Reply::Hosts(states.copy(alloc, seen.as_slice())),
        Reply::Sessions(present) => Reply::Sessions(sessions.copy(alloc, present.as_slice())),
        _ => copy_plain(reply),
    }
}
