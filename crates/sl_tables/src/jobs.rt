//! The running jobs, by number, and how many of them may come to a holding or a child.

ghost use Rattle.sl_host_state.specs.declared.kept_parts.JobState.{JobState as JobStateOf};
ghost use Rattle.sl_trace.specs.Jobs.{is_asking_lease, is_program};
ghost use Rattle.indexmap.specs.IndexMap.{set_value_at};
ghost use Rattle.sl_tables.specs.Jobs.{changed, ungranted, waiting, weight};
ghost use Rattle.sl_tables.specs.Rising.{altered};
ghost use Rattle.std.specs.Option.{option_or};
ghost use Rattle.std.specs.Prelude.{OnErr, OnOk, Option, Some, filter, find, length, max, not, option_map, slice_get, vec_capacity, vec_len, [], ◌+◌, ◌++◌, ◌-◌, ◌<◌, ◌==◌, ◌^◌, ◌∷◌, ◌≡◌, ◌≤◌, ℕ};

use crate::rising::{Rising, place_of};
use sl_host_state::{JobState, WaitingCall};
use sl_text::{Data, FilePath, Name};
use sl_trace::{Command, LockspaceArg, ResourceArg};
use std::alloc::{AllocError, Global};
use std::marker::Model;

/// Whether the command asks for a resource.
fn asks_lease(command: &Command) -> bool
    ensures { result ≡ is_asking_lease command.now }
{
    matches!(
        command,
        Command::Acquire { .. } | Command::RunProgram { .. }
    )
}

/// Whether it starts a program.
fn starts_program(command: &Command) -> bool
    ensures { result ≡ is_program command.now }
{
    matches!(command, Command::RunProgram { .. })
}

/// What the job adds to those that may come to a holding.
fn asks(job: &JobState) -> u64
    ensures { result ≡ weight is_asking_lease job.now }
{
    match &job.command {
        Some(command) if job.child.is_none() && asks_lease(command) => 1,
        _ => 0,
    }
}

/// What the job adds to those that may come to a child.
fn starts(job: &JobState) -> u64
    ensures { result ≡ weight is_program job.now }
{
    match &job.command {
        Some(command) if job.child.is_none() && starts_program(command) => 1,
        _ => 0,
    }
}

/// The job in the slot at this index waits for this call from here on, or for none; a gap stays.
fn set_waits_in(slots: &mut Vec<(u64, Option<JobState>)>, index: usize, waits: Option<WaitingCall>)
    requires { index < length slots.old.items }
    ensures slots { (n : ℕ) × (o : Option JobStateOf) × (slice_get slots.old.items index ≡ Some (n, o)) × (slots.new.items ≡ set_value_at slots.old.items index (option_map (waiting waits) o)) }
    ensures room { (vec_len slots.new ≡ vec_len slots.old) × (vec_capacity slots.new ≡ vec_capacity slots.old) }
{
    match &mut slots[index].1 {
        Some(job) => job.waits = waits,
        None => {}
    }
}

impl Rising<JobState> {
    /// The job of this number waits for this call from here on, or for none.
    fn set_waits(&mut self, number: u64, waits: Option<WaitingCall>)
        ensures { self.new ≡ record self.old { items = altered number (waiting waits) self.old.items } }
    {
        match place_of(&self.slots, number) {
            Some(index) => set_waits_in(&mut self.slots, index, waits),
            None => {}
        }
    }
}

/// The types within a job. A body that carries a job over a call names them all (`_within`, which is nothing): the borrow check refuses
/// it where one is not named there, with a message that calls itself a fault.
type WithinJob = (
    Command,
    LockspaceArg,
    ResourceArg,
    WaitingCall,
    Name,
    FilePath,
    Data,
);

/// The running jobs, by number, with memory for some more.
#[derive(Drop)]
pub struct Jobs {
    jobs: Rising<JobState>,
    asking: u64,
    programs: u64,
}

impl Model for Jobs {
    ghost use Rattle.sl_trace.specs.Jobs.{is_asking_lease, is_program};
    ghost use Rattle.sl_tables.specs.Jobs.{AreJobs, JobsState, weight};
    ghost use Rattle.sl_tables.specs.Totals.{total};
    ghost use Rattle.std.specs.Map.{values_of};
    ghost use Rattle.std.specs.Prelude.{◌≡◌};

    ghost Value = { JobsState };

    ghost view = { λ j. record { jobs = values_of j.jobs.items; next = j.jobs.next; room = j.jobs.room; gaps = j.jobs.gaps } };

    ghost invariant = { λ j. AreJobs j.jobs.items × (total (weight is_asking_lease) j.jobs.items ≡ j.asking) × (total (weight is_program) j.jobs.items ≡ j.programs) };
}

impl Jobs {
    /// An empty table, without room. It takes no memory.
    pub fn new(alloc: Global) -> Jobs
        ensures { result ≡ record { jobs = []; next = 0; room = 0; gaps = 0 } }
    {
        Jobs {
            jobs: Rising::new(alloc),
            asking: 0,
            programs: 0,
        }
    }

    /// Sees that there is memory for so many more. An `Err` is want of memory, and changes nothing but gaps.
    pub fn reserve(&mut self, room: usize) -> Result<(), AllocError>
        ensures jobs { (self.new.jobs ≡ self.old.jobs) × (self.new.next ≡ self.old.next) }
        ensures ok { OnOk result (self.new.room ≡ max self.old.room room) }
        ensures err { OnErr result (self.new.room ≡ self.old.room) }
    {
        self.jobs.reserve(room)
    }

    /// Closes all gaps that jobs which are over have left, so that their places serve again.
    pub fn pack(&mut self)
        ensures { self.new ≡ record self.old { gaps = 0 } }
    {
        self.jobs.pack();
    }

    /// One more job, with a number above all others.
    pub fn put(&mut self, job: JobState)
        requires room { 0 < self.old.room }
        requires rises { (self.old.next ≤ job.number) × (job.number < 2 ^ 64 - 1) }
        ensures { self.new ≡ record self.old { jobs = self.old.jobs ++ job ∷ []; next = job.number + 1; room = self.old.room - 1 } }
    {
        let _within: Option<WithinJob> = None;
        let (asking, programs) = (asks(&job), starts(&job));
        self.jobs.put(job.number, job);
        self.asking += asking;
        self.programs += programs;
    }

    /// The job of this number, if it runs.
    pub fn get(&self, number: u64) -> Option<&JobState>
        ensures { option_map (λ j. j.now) result ≡ find (λ j. j.number == number) self.now.jobs }
    {
        self.jobs.get(number)
    }

    /// The running jobs that ask for a resource and have no grant yet.
    pub fn asking(&self) -> u64
        ensures { result ≡ ungranted is_asking_lease self.now.jobs }
    {
        self.asking
    }

    /// The running jobs that start a program and have no grant yet.
    pub fn programs(&self) -> u64
        ensures { result ≡ ungranted is_program self.now.jobs }
    {
        self.programs
    }

    /// How many run.
    pub fn len(&self) -> usize
        ensures { result ≡ length self.now.jobs }
    {
        self.jobs.len()
    }

    /// The job at this place among all. There must be no gaps.
    pub fn nth(&self, place: usize) -> Option<&JobState>
        requires { self.now.gaps ≡ 0 }
        ensures { option_map (λ j. j.now) result ≡ slice_get self.now.jobs place }
    {
        let (_, job) = self.jobs.nth(place)?;
        Some(job)
    }

    /// The job of this number runs no more: it is given, if it did.
    pub fn take(&mut self, number: u64) -> Option<JobState>
        ensures job { result ≡ find (λ j. j.number == number) self.old.jobs }
        ensures jobs { self.new.jobs ≡ filter (λ j. not (j.number == number)) self.old.jobs }
        ensures kept { (self.new.next ≡ self.old.next) × (self.new.room ≡ self.old.room) }
    {
        let _within: Option<WithinJob> = None;
        match self.jobs.take(number) {
            Some(job) => {
                self.asking -= asks(&job);
                self.programs -= starts(&job);
                Some(job)
            }
            None => None,
        }
    }

    /// Puts the running job of this number in its own place, changed.
    fn exchange(&mut self, number: u64, old: JobState, job: JobState)
        requires there { find (λ j. j.number == number) self.old.jobs ≡ Some old }
        requires same { job.number ≡ old.number }
        ensures { (f : JobStateOf → JobStateOf) → f old ≡ job → self.new ≡ record self.old { jobs = changed number f self.old.jobs } }
    {
        let _within: Option<WithinJob> = None;
        let (asking, programs) = (asks(&job), starts(&job));
        self.jobs.set(number, job);
        self.asking = self.asking - asks(&old) + asking;
        self.programs = self.programs - starts(&old) + programs;
    }

    /// The job of this number waits for this call from here on, or for none.
    pub fn set_waits(&mut self, number: u64, waits: Option<WaitingCall>)
        ensures { self.new ≡ record self.old { jobs = changed number (λ j. record j { waits = waits }) self.old.jobs } }
    {
        let _within: Option<WithinJob> = None;
        self.jobs.set_waits(number, waits);
    }

    /// The job of this number has its grant, and waits for this child, if it has none yet.
    pub fn give_child(&mut self, number: u64, child: u32)
        ensures { self.new ≡ record self.old { jobs = changed number (λ j. record j { child = option_or j.child (Some child) }) self.old.jobs } }
    {
        let _within: Option<WithinJob> = None;
        match self.get(number).copied() {
            Some(old) => {
                let child = old.child.or(Some(child));
                self.exchange(number, old, JobState { child, ..old });
            }
            None => {}
        }
    }
}
