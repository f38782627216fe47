//! Turns of the locks: a line, the host's reply to an ask, the end of lvmlockd.
//!
//! Each function is one case of a turn and says which: what is kept and told afterwards is what `after_turn` makes of that case. A line ends in
//! `ask` or in `tell`; an acquire that lost against a rival is asked again, `retries` times at most, and every other refusal is told at once.

ghost use Rattle.sl_run.specs.Lvm as lvm;
ghost use Rattle.sl_run.specs.declared.turn.LvmIn.TheVariants.{Ended, Line as TextLine, Reply as HostReply};
ghost use Rattle.sl_locks.specs.Kinds.{line_of};
ghost use Rattle.sl_locks.specs.Tables.{compares, course_of, deactivates, gives, gives_writing, has_room, informs, is_torn, left_by, locks_of, lvm_of, releases_written, stops, tells_unread, version_read, version_written};
ghost use Rattle.sl_run.specs.Locks.{after_turn};
ghost use Rattle.sl_trace.specs.EffectTexts as texts;
ghost use Rattle.std.specs.Prelude.{true, ◌≡◌};

use crate::ask::{Ask, LOCK_PROCESS};
use crate::line::{Kind, read_line};
use crate::lock::{HeldLock, Lock};
use crate::reply::LineReply;
use crate::table::{Answer, LvmLocks, Stage, copied, forget, hold, see};
use sl_text::{Name, Seq};
use sl_trace::{Mode, Reply};
use std::mem;

/// Whether a reply is no refusal.
fn is_ok(reply: &Reply) -> bool
    ensures { result ≡ texts.is_ok_reply reply.now }
{
    matches!(
        reply,
        Reply::Done
            | Reply::Generation { .. }
            | Reply::Granted { .. }
            | Reply::Started { .. }
            | Reply::Value { .. }
            | Reply::ValueSet { .. }
            | Reply::Hosts(_)
            | Reply::Sessions(_)
    )
}

/// Whether an acquire that is so refused lost against a rival.
fn is_lost(reply: &Reply) -> bool
    ensures { result ≡ lvm.is_lost reply.now }
{
    matches!(reply, Reply::Rival { .. } | Reply::Ahead { .. })
}

/// The version of the value that a reply tells, if one was read.
fn version_read(reply: &Reply) -> Option<(u64, u64)>
    ensures { result ≡ version_read reply.now }
{
    match reply {
        Reply::Value { lver, seq, .. } => Some((*lver, *seq)),
        _ => None,
    }
}

/// The version that a value was written with, if it was.
fn version_written(reply: &Reply) -> Option<(u64, u64)>
    ensures { result ≡ version_written reply.now }
{
    match reply {
        Reply::ValueSet { lver, seq } => Some((*lver, *seq)),
        _ => None,
    }
}

/// Whether the value that was read is torn.
fn is_torn(reply: &Reply) -> bool
    ensures { result ≡ is_torn reply.now }
{
    matches!(reply, Reply::ValueTorn)
}

impl LvmLocks {
    /// The line is answered as the host did.
    fn pass_on(&mut self, reply: Reply) -> Answer
        ensures { left_by self.new result ≡ after_turn (locks_of self.old) (lvm.passes_on reply (lvm_of self.old)) }
    {
        self.tell(LineReply::Passed(reply))
    }

    /// The lock is asked for in a mode, which was asked so often before.
    fn acquire(&mut self, lock: Lock, mode: Mode, again: u32, compares: bool) -> Answer
        ensures { left_by self.new result ≡ after_turn (locks_of self.old) (lvm.asks_lock lock mode again compares (lvm_of self.old)) }
    {
        self.ask(
            Ask::Acquire { lock, mode },
            Stage::Acquiring {
                lock,
                mode,
                again,
                compares,
            },
        )
    }

    /// The lock is given up, after a write that was refused so.
    fn release(&mut self, lock: Lock, refused: Option<Reply>) -> Answer
        ensures { left_by self.new result ≡ after_turn (locks_of self.old) (lvm.asks_release lock refused (lvm_of self.old)) }
    {
        self.refused = refused;
        self.ask(Ask::Release { lock }, Stage::Releasing { lock })
    }

    /// A group's lockspace is left, unless a logical volume of the group is held.
    fn stop(&mut self, group: Name, id: u32) -> Answer
        ensures { left_by self.new result ≡ after_turn (locks_of self.old) (stops group id (lvm_of self.old)) }
    {
        if self.has_volume(group) {
            return self.pass_on(Reply::Busy {
                process: LOCK_PROCESS,
            });
        }
        self.ask(Ask::Leave { group, id }, Stage::Moving)
    }

    /// A lock that is held is given up.
    fn give(&mut self, lock: Lock) -> Answer
        ensures { left_by self.new result ≡ after_turn (locks_of self.old) (gives lock (lvm_of self.old)) }
    {
        if !self.is_held(&lock) {
            return self.pass_on(Reply::NotHeld);
        }
        self.release(lock, None)
    }

    /// A group's lock that is held is given up, after a write of its value.
    fn give_writing(&mut self, lock: Lock) -> Answer
        ensures { left_by self.new result ≡ after_turn (locks_of self.old) (gives_writing lock (lvm_of self.old)) }
    {
        if !self.is_held(&lock) {
            return self.pass_on(Reply::NotHeld);
        }
        self.ask(Ask::WriteValue { lock }, Stage::Writing { lock })
    }

    /// Of a logical volume's locks that are held the first is given up.
    fn deactivate(&mut self, group: Name, name: Name) -> Answer
        ensures { left_by self.new result ≡ after_turn (locks_of self.old) (deactivates group name (lvm_of self.old)) }
    {
        match self.first_held(group, name).copied() {
            None => self.pass_on(Reply::NotHeld),
            Some(held) => self.release(held.lock, None),
        }
    }

    /// The locks that are held are told. It takes no memory.
    fn inform(&mut self) -> Answer
        requires { has_room self.old ≡ true }
        ensures { left_by self.new result ≡ after_turn (locks_of self.old) (informs (lvm_of self.old)) }
    {
        let empty = Vec::new(*self.held.allocator());
        let room = mem::replace(&mut self.spare, empty);
        let held: Vec<HeldLock> = copied(&self.held, room);
        self.tell(LineReply::Locks(Seq::new(held)))
    }

    /// What a line begins with.
    #[tactic(auto, unfolding(sl_run::specs::Lvm::begins))]
    fn begin(&mut self, kind: Kind) -> Answer
        requires { has_room self.old ≡ true }
        ensures { left_by self.new result ≡ after_turn (locks_of self.old) (lvm.begins (lvm_of self.old) (line_of kind)) }
    {
        match kind {
            Kind::Start { group, id } => self.ask(Ask::Join { group, id }, Stage::Moving),
            Kind::Stop { group, id } => self.stop(group, id),
            Kind::Take { lock, mode } => self.acquire(lock, mode, 0, false),
            Kind::Compare { lock, mode } => self.acquire(lock, mode, 0, true),
            Kind::Give { lock } => self.give(lock),
            Kind::Write { lock } => self.give_writing(lock),
            Kind::Deactivate { group, name } => self.deactivate(group, name),
            Kind::Inform => self.inform(),
        }
    }

    /// A line comes: it is answered at once, or its first ask is due.
    #[tactic(auto, unfolding(sl_run::specs::Lvm::lvm_turn))]
    pub(crate) fn take_line(&mut self, text: &[u8]) -> Answer
        requires { has_room self.old ≡ true }
        ensures { left_by self.new result ≡ after_turn (locks_of self.old) (lvm.lvm_turn (lvm_of self.old) (TextLine text.now)) }
    {
        match read_line(text, &self.geometry) {
            Ok(line) => self.begin(line.kind),
            Err(column) => self.pass_on(Reply::BadCommand {
                column: column as u64,
            }),
        }
    }

    /// After the reply to an acquire.
    fn after_acquiring(
        &mut self,
        lock: Lock,
        mode: Mode,
        again: u32,
        compares: bool,
        reply: Reply,
    ) -> Answer
        requires { has_room self.old ≡ true }
        ensures { left_by self.new result ≡ after_turn (locks_of self.old) (lvm.after_acquiring (lvm_of self.old) lock mode again compares reply) }
    {
        if is_ok(&reply) {
            hold(&mut self.held, lock, mode);
            if compares {
                return self.ask(Ask::ReadValue { lock }, Stage::Reading { lock });
            }
            return self.pass_on(reply);
        }
        if is_lost(&reply) && again < self.retries {
            return self.acquire(lock, mode, again + 1, compares);
        }
        self.pass_on(reply)
    }

    /// The value was not read: a torn one counts as changed, and a refusal is told.
    fn tell_unread(&mut self, reply: Reply) -> Answer
        ensures { left_by self.new result ≡ after_turn (locks_of self.old) (tells_unread reply (lvm_of self.old)) }
    {
        if is_torn(&reply) {
            return self.tell(LineReply::Compared { same: false });
        }
        self.pass_on(reply)
    }

    /// This version of the group's value was read, or none was.
    fn compare(&mut self, lock: Lock, version: Option<(u64, u64)>, reply: Reply) -> Answer
        requires { has_room self.old ≡ true }
        ensures { left_by self.new result ≡ after_turn (locks_of self.old) (compares lock version reply (lvm_of self.old)) }
    {
        match version {
            Some((lver, seq)) => {
                let same = self.is_seen(lock.group, lver, seq);
                see(&mut self.seen, lock.group, lver, seq);
                self.tell(LineReply::Compared { same })
            }
            None => {
                forget(&mut self.seen, lock.group);
                self.tell_unread(reply)
            }
        }
    }

    /// After the reply to the read of a group's value: a torn one counts as changed.
    fn after_reading(&mut self, lock: Lock, reply: Reply) -> Answer
        requires { has_room self.old ≡ true }
        ensures { left_by self.new result ≡ after_turn (locks_of self.old) (lvm.after_reading (lvm_of self.old) lock reply) }
    {
        let version = version_read(&reply);
        self.compare(lock, version, reply)
    }

    /// The value was written with this version, or was not: the release follows either way.
    fn release_written(&mut self, lock: Lock, version: Option<(u64, u64)>, reply: Reply) -> Answer
        requires { has_room self.old ≡ true }
        ensures { left_by self.new result ≡ after_turn (locks_of self.old) (releases_written lock version reply (lvm_of self.old)) }
    {
        match version {
            Some((lver, seq)) => {
                see(&mut self.seen, lock.group, lver, seq);
                self.release(lock, None)
            }
            None => {
                forget(&mut self.seen, lock.group);
                self.release(lock, Some(reply))
            }
        }
    }

    /// After the reply to its write: the release follows either way.
    fn after_writing(&mut self, lock: Lock, reply: Reply) -> Answer
        requires { has_room self.old ≡ true }
        ensures { left_by self.new result ≡ after_turn (locks_of self.old) (lvm.after_writing (lvm_of self.old) lock reply) }
    {
        let version = version_written(&reply);
        self.release_written(lock, version, reply)
    }

    /// After the reply to a release: where it is ok, what the write before it was refused for is told.
    fn after_releasing(&mut self, reply: Reply) -> Answer
        ensures { left_by self.new result ≡ after_turn (locks_of self.old) (lvm.after_releasing (lvm_of self.old) self.old.refused reply) }
    {
        let refused = mem::replace(&mut self.refused, None);
        if is_ok(&reply) {
            return self.pass_on(refused.unwrap_or(reply));
        }
        self.pass_on(reply)
    }

    /// After the host's reply, by how far the line has come.
    #[tactic(auto, unfolding(sl_run::specs::Lvm::goes_on_with))]
    fn go_on(&mut self, stage: Stage, reply: Reply) -> Answer
        requires { has_room self.old ≡ true }
        ensures { left_by self.new result ≡ after_turn (locks_of self.old) (lvm.goes_on_with (lvm_of self.old) reply (course_of self.old.refused stage)) }
    {
        match stage {
            Stage::Moving => self.pass_on(reply),
            Stage::Acquiring {
                lock,
                mode,
                again,
                compares,
            } => self.after_acquiring(lock, mode, again, compares, reply),
            Stage::Reading { lock } => self.after_reading(lock, reply),
            Stage::Writing { lock } => self.after_writing(lock, reply),
            Stage::Releasing { .. } => self.after_releasing(reply),
        }
    }

    /// The host's reply to the ask comes.
    #[tactic(auto, unfolding(sl_run::specs::Lvm::lvm_turn))]
    pub(crate) fn take_reply(&mut self, reply: Reply) -> Answer
        requires { has_room self.old ≡ true }
        ensures { left_by self.new result ≡ after_turn (locks_of self.old) (lvm.lvm_turn (lvm_of self.old) (HostReply reply)) }
    {
        match self.stage {
            None => None,
            Some(stage) => self.go_on(stage, reply),
        }
    }

    /// lvmlockd has ended: it holds nothing and knows nothing, and a line goes on as it was.
    #[tactic(auto, unfolding(sl_run::specs::Lvm::lvm_turn))]
    pub(crate) fn end(&mut self)
        ensures { locks_of self.new ≡ (after_turn (locks_of self.old) (lvm.lvm_turn (lvm_of self.old) Ended)).0 }
    {
        self.held.clear();
        self.seen.clear();
    }
}
