//! A line, heard: it is a job from here on, or it is answered at once.

ghost use Rattle.sl_host_state.specs.HeardInputs.{answered_line, heard_line, heard_number, program_answered};
ghost use Rattle.sl_trace.specs.KillPrograms.{is_done, kill_program_in, with_program};
ghost use Rattle.sl_trace.specs.declared.reply.Reply.TheVariants.{BadCommand as Misread};
ghost use Rattle.sl_host.specs.Books.{books_answering};
ghost use Rattle.sl_host.specs.Host.{Becomes, SameRun};
ghost use Rattle.sl_host.specs.LineParts.{kill_program, leaving_begins, line_begun, lockspace_left};
ghost use Rattle.std.specs.Prelude.{Err, Ok, cond, min, option_map, ◌+◌, ◌-◌, ◌<◌, ◌^◌, ◌≡◌, ◌≤◌};

use crate::books::Books;
use crate::host::Host;
use sl_tables::Programs;
use sl_text::FilePath;
use sl_trace::{Begun, Command, JobReply, LockspaceArg, Reply};

/// The lockspace that a line leaves.
fn lockspace_left(command: &Command) -> Option<LockspaceArg>
    ensures { result ≡ lockspace_left command.now }
{
    match command {
        Command::RemLockspace(lockspace) => Some(*lockspace),
        _ => None,
    }
}

/// The process and the kill program that a command sets.
fn program_in(command: &Command) -> Option<(u32, FilePath)>
    ensures { option_map kill_program result ≡ kill_program_in (Ok command.now) }
{
    match command {
        Command::SetKillpath { process, program } => Some((*process, *program)),
        _ => None,
    }
}

/// Whether a reply says that it is done.
fn is_done(reply: &Reply) -> bool
    ensures { result ≡ is_done reply.now }
{
    matches!(reply, Reply::Done)
}

/// The process and the kill program that are set by a command which is answered so.
#[tactic(auto, using(crate::proofs::LinesHeard::chosen_all, crate::proofs::LinesHeard::chosen_none))]
fn program_set(command: &Command, reply: &Reply) -> Option<(u32, FilePath)>
    ensures { option_map kill_program result ≡ program_answered (Ok command.now) reply.now }
{
    if is_done(reply) {
        program_in(command)
    } else {
        None
    }
}

/// A kill program is set, if there is one.
fn set_program(programs: &mut Programs, program: Option<(u32, FilePath)>)
    requires { 0 < programs.old.room }
    ensures programs { programs.new.programs ≡ with_program (option_map kill_program program) programs.old.programs }
    ensures room { programs.old.room ≤ programs.new.room + 1 }
{
    match program {
        Some((process, path)) => programs.set(process, path),
        None => {}
    }
}

impl Books {
    /// A line that is answered at once, and sets a kill program perhaps.
    fn answer(&mut self, reply: Reply, program: Option<(u32, FilePath)>)
        requires { 0 < self.old.left }
        ensures { self.new ≡ books_answering reply (option_map kill_program program) self.old }
    {
        set_program(&mut self.programs, program);
        let job = self.next_job;
        self.next_job += 1;
        self.made.reply(JobReply { job, reply });
    }

    /// The number of the next job.
    fn next_job(&self) -> u64
        ensures { result ≡ self.now.next_job }
    {
        self.next_job
    }

    /// From this reading on something may be due before an input, where something begins.
    fn lower_where(&mut self, begins: bool, moment: u64)
        ensures { self.new ≡ record self.old { quiet_until = cond begins (min self.old.quiet_until moment) self.old.quiet_until } }
    {
        if begins {
            self.lower(moment);
        }
    }
}

impl Host {
    /// The number of the next line, and so of its job.
    pub fn next_job(&self) -> u64
        ensures { result ≡ self.now.kept.next_job }
    {
        self.books.next_job()
    }

    /// A line whose command is answered at once. A kill program that it sets is set from here on.
    pub fn answer_line(&mut self, command: &Command, reply: Reply)
        requires { 0 < self.old.left }
        ensures state { Becomes self.old self.new (answered_line (Ok command.now) reply) }
        ensures left { (self.new.left ≡ self.old.left - 1) × (self.new.calls ≡ self.old.calls) }
        ensures run { SameRun self.old self.new }
    {
        let program = program_set(command, &reply);
        self.books.answer(reply, program);
    }

    /// A line that says no command: the column of the first word that doesn't fit is told.
    pub fn misread_line(&mut self, column: u64)
        requires { 0 < self.old.left }
        ensures state { Becomes self.old self.new (answered_line (Err column) (Misread column)) }
        ensures left { (self.new.left ≡ self.old.left - 1) × (self.new.calls ≡ self.old.calls) }
        ensures run { SameRun self.old self.new }
    {
        self.books.answer(Reply::BadCommand { column }, None);
    }

    /// A line that says no command of the host's takes a number alone.
    pub fn number_line(&mut self)
        requires { 0 < self.old.left }
        ensures state { Becomes self.old self.new heard_number }
        ensures left { (self.new.left ≡ self.old.left - 1) × (self.new.calls ≡ self.old.calls) }
        ensures run { SameRun self.old self.new }
    {
        self.books.number();
    }

    /// A line is a job from here on.
    fn begin_line(&mut self, command: &Command)
        requires { 0 < self.old.left }
        ensures state { Becomes self.old self.new (line_begun command.now) }
        ensures left { (self.new.left ≡ self.old.left - 1) × (self.new.calls ≡ self.old.calls) }
        ensures run { SameRun self.old self.new }
    {
        self.books.line(command);
    }

    /// The leaving of the sessions that these words name begins, for this job: their kills are due `grace` from now.
    fn begin_leaving(&mut self, lockspace: &LockspaceArg, job: u64)
        requires { self.old.kept.reading + self.old.kept.config.grace < 2 ^ 64 }
        ensures state { Becomes self.old self.new (leaving_begins lockspace.now job) }
        ensures left { (self.new.left ≡ self.old.left) × (self.new.calls ≡ self.old.calls) }
        ensures run { SameRun self.old self.new }
    {
        let now = self.reading();
        let entries = self.entries();
        let moment = now + self.config().grace;
        let begun = Begun {
            at: entries.saturating_sub(1),
            reading: now,
            kills_from: entries,
        };
        let leaves = self.members.is_left(lockspace);
        self.members.leave(lockspace, begun, job);
        self.books.lower_where(leaves, moment);
    }

    /// A line whose command is carried out: it is a job from here on, and a `rem_lockspace` begins its leaving.
    pub fn hear_line(&mut self, command: &Command)
        requires left { 0 < self.old.left }
        requires moment { self.old.kept.reading + self.old.kept.config.grace < 2 ^ 64 }
        ensures state { Becomes self.old self.new (heard_line command.now) }
        ensures left { (self.new.left ≡ self.old.left - 1) × (self.new.calls ≡ self.old.calls) }
        ensures run { SameRun self.old self.new }
    {
        let job = self.next_job();
        let left = lockspace_left(command);
        self.begin_line(command);
        match left {
            Some(lockspace) => self.begin_leaving(&lockspace, job),
            None => {}
        }
    }
}
