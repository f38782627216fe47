//! The place of the locks in a daemon's steps: which number a line or an ask takes, which reply is that to an ask, and what is told of a step.

ghost use Rattle.sl_locks.specs.Replies.{told_as};
ghost use Rattle.sl_locks.specs.Steps.{IsTurned, given_number, heard_by, is_asked, is_quiet, lock_input, turned_by};
ghost use Rattle.sl_locks.specs.Tables.{has_room, left_by, locks_of};
ghost use Rattle.sl_run.specs.Locks.{Told, ended_locks, is_lock_exit, locks_after, told_effects};
ghost use Rattle.sl_trace.specs.Traces.{no_effects};
ghost use Rattle.std.specs.List.{position};
ghost use Rattle.std.specs.Prelude.{None, filter, find, not, true, ◌≡◌};

use crate::ask::LOCK_PROCESS;
use crate::reply::LineReply;
use crate::table::{Answer, LvmLocks};
use sl_text::{Bytes, Seq};
use sl_trace::{Effects, JobReply};
use std::alloc::Global;

/// What the locks take of the input that the daemon is given: that it is a line for the host, a line for lvmlockd, or the exit of a process.
#[derive(Drop)]
pub enum LockInput {
    Line,
    Number(Bytes),
    Exit(u32),
    Nothing,
}

/// What is told of a step: its effects without the reply to an ask, and the reply to lvmlockd's line with the line's number, if it has come.
#[derive(Drop)]
pub struct StepTold {
    pub effects: Effects,
    pub line: Option<(u64, LineReply)>,
}

/// Whether lvmlockd itself ends by the input.
fn is_lock_exit(input: &LockInput) -> bool
    ensures { result ≡ is_lock_exit (lock_input input.now) }
{
    match input {
        LockInput::Exit(process) => *process == LOCK_PROCESS,
        LockInput::Line => false,
        LockInput::Number(_) => false,
        LockInput::Nothing => false,
    }
}

/// Whether a step brings no turn: no ask waits for a reply, and no line comes.
fn is_quiet(input: &LockInput, asked: Option<u64>) -> bool
    ensures { result ≡ is_quiet input.now asked }
{
    match input {
        LockInput::Number(_) => false,
        LockInput::Line => asked.is_none(),
        LockInput::Exit(_) => asked.is_none(),
        LockInput::Nothing => asked.is_none(),
    }
}

/// Whether the reply is that to the ask.
fn answers_ask(reply: &JobReply, asked: Option<u64>) -> bool
    ensures { result ≡ is_asked asked reply.now }
{
    match asked {
        Some(number) => number == reply.job,
        None => false,
    }
}

/// Where the first reply to the ask stands.
fn place_of(replies: &[JobReply], asked: Option<u64>) -> Option<usize>
    ensures { result ≡ position (is_asked asked) replies.now }
{
    replies.iter().position(|reply| answers_ask(reply, asked))
}

/// Takes the first reply to the ask out of those of a step, if one is there.
fn first_reply(replies: &mut Vec<JobReply>, asked: Option<u64>) -> Option<JobReply>
    ensures found { result ≡ find (is_asked asked) replies.old.items }
    ensures rest { filter (λ a. not (is_asked asked a)) replies.new.items ≡ filter (λ a. not (is_asked asked a)) replies.old.items }
{
    match place_of(replies, asked) {
        Some(index) => Some(replies.remove(index)),
        None => None,
    }
}

/// Drops all replies to the ask.
fn without_replies(replies: &mut Vec<JobReply>, asked: Option<u64>)
    ensures { replies.new.items ≡ filter (λ a. not (is_asked asked a)) replies.old.items }
{
    replies.retain(|reply| !answers_ask(reply, asked));
}

/// The replies to the ask go out of the effects; the first of them.
fn split_reply(effects: &mut Effects, asked: Option<u64>) -> Option<JobReply>
    ensures rest { effects.new ≡ record effects.old { replies = filter (λ a. not (is_asked asked a)) effects.old.replies } }
    ensures found { result ≡ find (is_asked asked) effects.old.replies }
{
    let mut others = effects.replies.take();
    let found = first_reply(&mut others, asked);
    without_replies(&mut others, asked);
    effects.replies = Seq::new(others);
    found
}

impl StepTold {
    /// A place in which a step is told: nothing, so far.
    pub fn nothing(alloc: Global) -> StepTold
        ensures { (result.effects ≡ no_effects) × (result.line ≡ None) }
    {
        StepTold {
            effects: Effects {
                ends: Seq::new(Vec::new(alloc)),
                signals: Seq::new(Vec::new(alloc)),
                moves: Seq::new(Vec::new(alloc)),
                grants: Seq::new(Vec::new(alloc)),
                starts: Seq::new(Vec::new(alloc)),
                replies: Seq::new(Vec::new(alloc)),
                calls: Seq::new(Vec::new(alloc)),
            },
            line: None,
        }
    }
}

impl LvmLocks {
    /// The step that begins with this input takes this number, if it is the line's or an ask's.
    fn take_number(&mut self, number: u64, input: &LockInput)
        ensures { self.new ≡ given_number number input.now self.old }
    {
        match input {
            LockInput::Number(_) => {
                self.line = Some(number);
            }
            LockInput::Line => {
                if self.due.is_some() {
                    self.asked = Some(number);
                    self.due = None;
                }
            }
            LockInput::Exit(_) => {}
            LockInput::Nothing => {}
        }
    }

    /// The turn that a reply brings, if it came.
    fn take_heard(&mut self, reply: Option<JobReply>) -> Answer
        requires { has_room self.old ≡ true }
        ensures { left_by self.new result ≡ heard_by reply (locks_of self.old) }
    {
        match reply {
            Some(answer) => self.take_reply(answer.reply),
            None => None,
        }
    }

    /// The turn that a step brings: a line's, or that of the reply to an ask.
    fn hear(&mut self, input: &LockInput, reply: Option<JobReply>) -> Answer
        requires { has_room self.old ≡ true }
        ensures { left_by self.new result ≡ turned_by input.now reply (locks_of self.old) }
    {
        match input {
            LockInput::Number(text) => self.take_line(text.as_slice()),
            LockInput::Line => self.take_heard(reply),
            LockInput::Exit(_) => self.take_heard(reply),
            LockInput::Nothing => self.take_heard(reply),
        }
    }

    /// lvmlockd ends, where it does by this input.
    fn end_by(&mut self, input: &LockInput)
        ensures { (told : Told) → (locks_of self.new, told) ≡ ended_locks (lock_input input.now) (locks_of self.old, told) }
    {
        if is_lock_exit(input) {
            self.end();
        }
    }

    /// What a step brings that may bring a turn: its replies are looked through for that to the ask.
    fn turn_by(&mut self, input: &LockInput, told: &mut StepTold)
        requires { has_room self.old ≡ true }
        ensures { IsTurned input.now told.old.effects self.old self.new told.new }
    {
        let asked = self.asked;
        let reply = split_reply(&mut told.effects, asked);
        told.line = self.hear(input, reply);
        self.end_by(input);
    }

    /// What a step brings. Few bring a turn, and what a turn keeps of a reply is large: so it stands in a function of its own, and a step without
    /// one sets and moves nothing of it.
    fn turn_numbered(&mut self, input: &LockInput, told: &mut StepTold)
        requires { has_room self.old ≡ true }
        ensures { IsTurned input.now told.old.effects self.old self.new told.new }
    {
        if is_quiet(input, self.asked) {
            self.end_by(input);
            told.line = None;
        } else {
            self.turn_by(input, told);
        }
    }

    /// The step with this number, input and effects, which stand where it is told: there it is told as it is for others. It takes no memory.
    pub fn turn(&mut self, number: u64, input: LockInput, told: &mut StepTold)
        requires { has_room self.old ≡ true }
        ensures stays { locks_of self.new ≡ (locks_after number (lock_input input) told.old.effects (locks_of self.old)).0 }
        ensures line { told_as told.new.line ≡ (locks_after number (lock_input input) told.old.effects (locks_of self.old)).1 }
        ensures effects { told.new.effects ≡ told_effects number (lock_input input) told.old.effects (locks_of self.old) }
    {
        self.leave(&told.effects);
        self.take_number(number, &input);
        self.turn_numbered(&input, told);
    }
}
