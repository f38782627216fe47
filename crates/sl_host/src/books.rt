//! What a host keeps besides its members: its configuration, numbers and tables, and the effects of the step in progress.

ghost use Rattle.sl_host_state.specs.MadeEffects.{job_calling};
ghost use Rattle.sl_host_state.specs.HostStands.{kept_call, kept_waiting, sectors_of};
ghost use Rattle.sl_trace.specs.Traces.{first_child, job_of, new_call};
ghost use Rattle.sl_host.specs.Books.{books_calling, books_counting, books_ending, books_exiting, books_granting, books_lining, books_lowering, books_moving, books_numbering, books_replying, books_signalling, books_spawning, books_starting, ended_by, lver_in, submitted_in, value_in};
ghost use Rattle.std.specs.Prelude.{Some, cond, is_some, length, map, min, ◌+◌, ◌-◌, ◌<◌, ◌^◌, ◌≡◌, ◌≤◌};

use crate::buffers::Buffers;
use sl_area::Geometry;
use sl_host_state::{JobState, OpenCall, ValuePair, WaitingCall};
use sl_sector::{Block, DeltaRec, DeltaState, Leader, PairBlock, Rec, Request, ValueRec};
use sl_tables::{
    ChildState, Children, Connections, Holder, Holdings, Jobs, OpenCalls, Programs, Sought,
};
use sl_text::{Data, FilePath, Name};
use sl_time::Timing;
use sl_trace::{
    Call, Command, End, Grant, JobReply, JoinStep, LeaseRead, LeaseStep, Move, Op, Purpose, Reply,
    Sent, Spot, Start, Work,
};
use std::marker::Model;

/// What a host is made of: its times, the time from recovery to kills in milliseconds, sizes of sectors and areas, its machine and name.
#[derive(Drop)]
pub struct Config {
    pub timing: Timing,
    pub grace: u64,
    pub geometry: Geometry,
    pub machine: u32,
    pub name: Name,
}

impl Model for Config {
    ghost use Rattle.sl_host_state.specs.KeptState.{Made};

    ghost Value = { Made };

    ghost view = { λ c. record { timing = c.timing; grace = c.grace; sizes = c.geometry; machine = c.machine; name = c.name } };
}

impl Config {
    /// From when on a call is overdue that is submitted at this reading.
    fn overdue(&self, reading: u64) -> u64
        requires { reading < 2 ^ 63 }
        ensures { result ≡ reading + self.now.timing.io }
    {
        // Twice this time is that between renewals, which has a bound: so the proof knows that the sum fits.
        let _renewals = self.timing.renew();
        reading + self.timing.io()
    }
}

/// All that a host keeps but its members. Each table has memory for what the effects that are left may put into it.
#[derive(Drop)]
pub struct Books {
    pub(crate) config: Config,
    pub(crate) reading: u64,
    pub(crate) before: u64,
    pub(crate) entries: u64,
    pub(crate) quiet_until: u64,
    pub(crate) first_call: u64,
    pub(crate) next_job: u64,
    pub(crate) started: u32,
    pub(crate) granted: u64,
    pub(crate) born: u64,
    pub(crate) connected: Connections,
    pub(crate) unanswered: OpenCalls,
    pub(crate) jobs: Jobs,
    pub(crate) holdings: Holdings,
    pub(crate) children: Children,
    pub(crate) programs: Programs,
    pub(crate) made: Buffers,
}

impl Model for Books {
    ghost use Rattle.sl_trace.specs.Traces.{first_child};
    ghost use Rattle.sl_host.specs.Books.{BooksState};
    ghost use Rattle.std.specs.Prelude.{length, ◌+◌, ◌<◌, ◌^◌, ◌≡◌, ◌≤◌};

    ghost Value = { BooksState };

    ghost view = { λ b. record {
      config = b.config;
      reading = b.reading;
      before = b.before;
      entries = b.entries;
      quiet_until = b.quiet_until;
      first_call = b.first_call;
      next_job = b.next_job;
      started = b.started;
      born = b.born;
      connected = b.connected.names;
      unanswered = b.unanswered.calls;
      jobs = b.jobs.jobs;
      holdings = b.holdings.held;
      children = b.children.children;
      programs = b.programs.programs;
      made = b.made.made;
      left = b.made.left;
      calls = b.made.calls;
      most = b.made.most;
      most_calls = b.made.most_calls;
    } };

    ghost invariant = { λ b. (b.made.left ≤ b.connected.room) × (b.made.calls ≤ b.unanswered.room) × (b.made.left ≤ b.holdings.room) × (b.made.left ≤ b.children.room)
        × (b.unanswered.area ≡ b.config.sizes.area) × (b.unanswered.next ≤ b.first_call + length b.made.made.calls) × (b.first_call + length b.made.made.calls + b.made.calls < 2 ^ 64)
        × (b.born + b.made.calls < 2 ^ 64)
        × (b.holdings.next ≤ b.granted) × (b.granted + b.made.left < 2 ^ 64) × (b.children.next ≤ first_child + b.started) × (b.started + b.made.left < 2 ^ 31)
        × (b.made.left ≤ b.jobs.room) × (b.jobs.next ≤ b.next_job) × (b.next_job + b.made.left < 2 ^ 64) × (b.made.left ≤ b.programs.room) };
}

/// The types within a call. A body that carries a call over another one names them all (`_within`, which is nothing): the borrow check
/// refuses it where one is not named there, with a message that calls itself a fault.
type WithinCall = (
    (
        Op,
        Purpose,
        Work,
        LeaseStep,
        LeaseRead,
        JoinStep,
        ValuePair,
        WaitingCall,
    ),
    (
        Rec,
        Leader,
        Block,
        PairBlock,
        DeltaRec,
        DeltaState,
        Request,
        ValueRec,
    ),
    (Name, Data, FilePath),
);

/// The sectors that are read; a write has none.
fn sectors_of(op: &Op) -> Option<u32>
    ensures { result ≡ sectors_of op.now }
{
    match op {
        Op::ReadSectors { sectors } => Some(*sectors),
        Op::WriteRecord { .. } => None,
    }
}

/// The instance of the leader or block that is written, and 0.
fn lver_of(op: &Op) -> u64
    ensures { result ≡ lver_in op.now }
{
    match op {
        Op::WriteRecord {
            record: Rec::LeaderIs(leader),
        } => leader.lver,
        Op::WriteRecord {
            record: Rec::BlockIs(block),
        } => block.lver,
        Op::WriteRecord {
            record: Rec::PairLeaderIs(leader),
        } => leader.lver,
        Op::WriteRecord {
            record: Rec::PairIs(pair),
        } => pair.block.lver,
        _ => 0,
    }
}

/// Version and seq of the value that is written.
fn value_of(op: &Op) -> Option<ValuePair>
    ensures { result ≡ value_in op.now }
{
    match op {
        Op::WriteRecord {
            record: Rec::ValueIs(value),
        } => Some(ValuePair {
            lver: value.lver,
            seq: value.seq,
        }),
        _ => None,
    }
}

/// The job that a call belongs to, if any.
pub(crate) fn job_of(purpose: &Purpose) -> Option<u64>
    ensures { result ≡ job_of purpose.now }
{
    match purpose {
        Purpose::Joining { job, .. }
        | Purpose::Leaving { job }
        | Purpose::RequestRead { job }
        | Purpose::RequestWrite { job, .. }
        | Purpose::ValueWrite { job }
        | Purpose::ValueRead { job }
        | Purpose::Lease {
            work: Work::ForJob { job },
            ..
        } => Some(*job),
        _ => None,
    }
}

/// What is kept of a call that is submitted at this reading, until its answer.
fn kept_call(call: &Call, reading: u64) -> OpenCall
    ensures exact { result ≡ kept_call (new_call 0 reading call.now) }
    ensures number { result.number ≡ call.now.number }
{
    OpenCall {
        number: call.number,
        session: call.session,
        purpose: call.purpose,
        path: call.path,
        offset: call.offset,
        sectors: sectors_of(&call.op),
        lver: lver_of(&call.op),
        value: value_of(&call.op),
        reading,
    }
}

/// The call, as one for which a job waits.
fn waiting(call: &Call, reading: u64) -> WaitingCall
    ensures { result ≡ kept_waiting (new_call 0 reading call.now) }
{
    WaitingCall {
        number: call.number,
        reading,
    }
}

/// The job of a call that is submitted at this reading waits for it, if it has one.
#[tactic(auto, using(crate::proofs::BooksStand::jobs_called, crate::proofs::BooksStand::no_job_called))]
fn wait_for(jobs: &mut Jobs, call: &Call, reading: u64) -> bool
    ensures jobs { jobs.new ≡ record jobs.old { jobs = map (job_calling (new_call 0 reading call.now)) jobs.old.jobs } }
    ensures has { result ≡ is_some (job_of call.now.purpose) }
{
    match job_of(&call.purpose) {
        Some(job) => {
            jobs.set_waits(job, Some(waiting(call, reading)));
            true
        }
        None => false,
    }
}

/// Below which reading nothing is due, where something may begin that is due at a moment.
fn lowered(quiet_until: u64, begins: bool, moment: u64) -> u64
    ensures { result ≡ cond begins (min quiet_until moment) quiet_until }
{
    if begins {
        quiet_until.min(moment)
    } else {
        quiet_until
    }
}

/// The holdings that an end ends.
fn ended_by(end: &End) -> Sought
    ensures { result ≡ ended_by end.now }
{
    Sought {
        holder: Holder::Is(end.process),
        session: None,
        spot: Some(Spot {
            path: end.path,
            base: end.offset,
        }),
        mode: None,
    }
}

impl Books {
    /// Adds an end to the step's effects; the holding that it ends is held no more. It uses one of the room.
    #[tactic(auto, using(crate::proofs::BooksStand::ends_fit))]
    pub fn end(&mut self, end: End)
        requires { 0 < self.old.left }
        ensures { self.new ≡ books_ending end self.old }
    {
        self.holdings.end_all(&ended_by(&end));
        self.made.end(end);
    }

    /// Adds a grant to the step's effects; it is held from here on. It uses one of the room.
    pub fn grant(&mut self, grant: Grant)
        requires { 0 < self.old.left }
        ensures { self.new ≡ books_granting grant self.old }
    {
        let held = grant;
        self.made.grant(grant);
        self.holdings.put(held);
        self.granted += 1;
    }

    /// Adds a signal to the step's effects. It uses one of the room.
    pub fn signal(&mut self, sent: Sent)
        requires { 0 < self.old.left }
        ensures { self.new ≡ books_signalling sent self.old }
    {
        self.made.signal(sent);
    }

    /// The process number of the next child: above all that processes outside may have.
    pub fn next_child(&self) -> u32
        ensures { result ≡ first_child + self.now.started }
    {
        1_000_001 + self.started
    }

    /// One more start, with the next child's number.
    #[tactic(auto, using(crate::proofs::BooksStand::jobs_started, crate::proofs::BooksStand::no_job_started))]
    pub fn start(&mut self, start: Start)
        requires left { 0 < self.old.left }
        requires next { start.process ≡ first_child + self.old.started }
        ensures { self.new ≡ books_starting start self.old }
    {
        self.children.put(ChildState {
            process: start.process,
            job: start.job,
            stands_for: start.stands_for,
            started: false,
            exited: false,
        });
        if let Some(job) = start.job {
            self.jobs.give_child(job, start.process);
        }
        self.started += 1;
        self.made.start(start);
    }

    /// Adds a move of a connection to the step's effects; it stands from here on, or no more. It uses one of the room.
    pub fn move_on(&mut self, step: Move)
        requires { 0 < self.old.left }
        ensures { self.new ≡ books_moving step self.old }
    {
        match step {
            Move::Register { lockspace, .. } => self.connected.put(lockspace),
            Move::Renew { .. } => {}
            Move::Unregister { lockspace } => self.connected.remove(&lockspace),
        }
        self.made.move_on(step);
    }

    /// How many more calls the step may make: no more than it makes in all.
    pub fn calls_left(&self) -> usize
        ensures exact { result ≡ self.now.calls }
        ensures few { result ≤ self.now.most_calls }
    {
        self.made.more_calls()
    }

    /// The reading of the step in progress.
    pub fn reading(&self) -> u64
        ensures { result ≡ self.now.reading }
    {
        self.reading
    }

    /// How many sessions there have been: the number of the next one.
    pub fn born(&self) -> u64
        ensures { result ≡ self.now.born }
    {
        self.born
    }

    /// The number of the next call: calls are numbered on over all steps.
    pub fn next_call(&self) -> u64
        ensures { result ≡ self.now.first_call + length self.now.made.calls }
    {
        self.first_call + self.made.calls()
    }

    /// One more call, with the next number. Its job waits for it, and until then something may be due before an input.
    pub fn call(&mut self, call: Call)
        requires left { 0 < self.old.calls }
        requires next { call.number ≡ self.old.first_call + length self.old.made.calls }
        requires moment { self.old.reading < 2 ^ 63 }
        ensures { self.new ≡ books_calling (submitted_in self.old call) self.old }
    {
        let _within: Option<WithinCall> = None;
        self.unanswered.put(kept_call(&call, self.reading));
        let moment = self.config.overdue(self.reading);
        let waits = wait_for(&mut self.jobs, &call, self.reading);
        self.quiet_until = lowered(self.quiet_until, waits, moment);
        self.made.call(call);
    }

    /// One more reply: its job is over.
    pub fn reply(&mut self, job: u64, reply: Reply)
        requires { 0 < self.old.left }
        ensures { self.new ≡ books_replying job reply self.old }
    {
        self.jobs.take(job);
        self.made.reply(JobReply { job, reply });
    }

    /// A line that is carried out: it is a job from here on.
    pub fn line(&mut self, command: &Command)
        requires { 0 < self.old.left }
        ensures { self.new ≡ books_lining command.now self.old }
    {
        self.jobs.put(JobState {
            number: self.next_job,
            command: Some(*command),
            child: None,
            waits: None,
        });
        self.next_job += 1;
        self.made.spend();
    }

    /// A line that is no command takes a number.
    pub fn number(&mut self)
        requires { 0 < self.old.left }
        ensures { self.new ≡ books_numbering self.old }
    {
        self.next_job += 1;
        self.made.spend();
    }

    /// A process has exited: a child of this number has, unless the step starts it, and its kill program goes.
    pub fn exit(&mut self, process: u32)
        ensures { self.new ≡ books_exiting process self.old }
    {
        self.programs.remove(process);
        if !self.made.has_start(process) {
            self.children.exited(process);
        }
    }

    /// A start is answered, unless the step makes it.
    pub fn spawned(&mut self, process: u32, ok: bool)
        ensures { self.new ≡ books_spawning process ok self.old }
    {
        if !self.made.has_start(process) {
            self.children.answered(process, ok);
        }
    }

    /// A step begins, at this reading in milliseconds.
    pub fn count(&mut self, now: u64)
        requires { self.old.entries < 2 ^ 63 }
        ensures { self.new ≡ books_counting now self.old }
    {
        self.before = self.reading;
        self.reading = now;
        self.entries += 1;
    }

    /// From this reading on something may be due before an input.
    pub fn lower(&mut self, moment: u64)
        ensures { self.new ≡ books_lowering moment self.old }
    {
        self.quiet_until = self.quiet_until.min(moment);
    }
}
