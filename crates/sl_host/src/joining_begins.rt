//! A joining begins: one more session is born, and its first read is submitted.

ghost use Rattle.sl_host_state.specs.MadeEffects.{with_joining};
ghost use Rattle.sl_member.specs.Members.{IsOwnCall, blank_member};
ghost use Rattle.sl_member.specs.HostMembers.{member_with};
ghost use Rattle.sl_trace.specs.Sessions.{joining_session};
ghost use Rattle.sl_text.specs.Names.{is_name};
ghost use Rattle.sl_trace.specs.CountLimits.{most_lockspaces};
ghost use Rattle.sl_trace.specs.Traces.{new_call};
ghost use Rattle.sl_trace.specs.declared.effects.JoinStep.TheVariants.{FirstRead};
ghost use Rattle.sl_trace.specs.declared.effects.Purpose.TheVariants.{Joining};
ghost use Rattle.sl_host.specs.Books.{books_calling, submitted_in};
ghost use Rattle.sl_host.specs.Host.{Becomes, SameRun};
ghost use Rattle.sl_host.specs.MemberRun.{run_in};
ghost use Rattle.sl_words.specs.Bounds.{moments};
ghost use Rattle.std.specs.Prelude.{IfOk, IsTrue, None, length, ℕ, ◌+◌, ◌-◌, ◌<◌, ◌^◌, ◌≡◌, ◌≤◌};

use crate::books::Books;
use crate::host::{Host, WithinCall};
use sl_member::Member;
use sl_trace::{Call, JoinStep, LockspaceArg, Op, Purpose, Session};
use std::alloc::{AllocError, Global};

/// The session of this number that a job begins.
fn joining_session(number: u64, job: u64, lockspace: &LockspaceArg) -> Session
    ensures { result ≡ joining_session number job lockspace.now }
{
    Session {
        number,
        job: Some(job),
        lockspace: lockspace.name,
        id: lockspace.id,
        path: lockspace.path,
        offset: lockspace.offset,
        renewed: 0,
    }
}

impl Books {
    /// One more call, by which one more session is born.
    fn bear(&mut self, call: Call)
        requires left { 0 < self.old.calls }
        requires next { call.number ≡ self.old.first_call + length self.old.made.calls }
        requires moment { self.old.reading < 2 ^ 63 }
        ensures { self.new ≡ (let b = books_calling (submitted_in self.old call) self.old in record b { born = self.old.born + 1 }) }
    {
        let next = self.born + 1;
        self.call(call);
        self.born = next;
    }
}

impl Host {
    /// The member that the next session to be born is, for a job that joins by these words: a session without a call, with memory for so many
    /// leases. An `Err` is want of memory.
    pub fn seat(
        &self,
        alloc: Global,
        lockspace: &LockspaceArg,
        job: u64,
        leases: usize,
    ) -> Result<Member, AllocError>
        requires id { (1 ≤ lockspace.now.id) × (lockspace.now.id ≤ self.now.kept.config.sizes.hosts) }
        requires named { IsTrue (is_name self.now.kept.config.name) × IsTrue (is_name lockspace.now.name) }
        ensures { IfOk result (λ m. m ≡ record {
          run = run_in self.now.kept.config;
          state = blank_member (run_in self.now.kept.config) (joining_session self.now.kept.born job lockspace.now);
          room = leases;
        }) }
    {
        let config = self.config();
        let who = joining_session(self.born(), job, lockspace);
        let mut member = Member::new(alloc, &config.timing, &config.geometry, config.name, who)?;
        member.reserve(leases)?;
        Ok(member)
    }

    /// One more session is born, with this member: its first read is submitted, to do this at this place. All memory was taken before.
    pub fn join(&mut self, member: Member, lockspace: &LockspaceArg, job: u64, offset: u64, op: Op)
        requires run { member.run ≡ run_in self.old.kept.config }
        requires blank { member.state ≡ blank_member (run_in self.old.kept.config) (joining_session self.old.kept.born job lockspace.now) }
        requires room { self.old.calls ≤ member.room }
        requires left { 0 < self.old.calls }
        requires new { member_with self.old.kept.born self.old.kept.members ≡ None }
        requires few { length self.old.kept.members < most_lockspaces }
        requires moment { self.old.kept.reading < moments }
        requires own { (n : ℕ) → IsOwnCall (new_call 0 self.old.kept.reading (record { number = n; session = self.old.kept.born; purpose = Joining job FirstRead; path = lockspace.now.path; offset = offset; op = op })) }
        ensures state { Becomes self.old self.new (with_joining job lockspace.now (Joining job FirstRead) offset op) }
        ensures left { (self.new.left ≡ self.old.left) × (self.new.calls ≡ self.old.calls - 1) }
        ensures run { SameRun self.old self.new }
    {
        let _within: Option<WithinCall> = None;
        let call = Call {
            number: self.books.next_call(),
            session: self.books.born(),
            purpose: Purpose::Joining {
                job,
                step: JoinStep::FirstRead,
            },
            path: lockspace.path,
            offset,
            op,
        };
        let now = self.books.reading();
        self.members.put(member);
        self.members.calling(now, &call);
        self.books.bear(call);
    }
}
