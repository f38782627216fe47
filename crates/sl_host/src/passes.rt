//! What a pass over a host goes by: its members, jobs and holders.

ghost use Rattle.sl_host_law.specs.Questions.Jobs.{is_of_process_in};
ghost use Rattle.sl_tables.specs.Children.{child_of};
ghost use Rattle.sl_tables.specs.Holdings.{fits, least_holder, sought_of};
ghost use Rattle.sl_host.specs.ChosenJobs.{chosen_among, is_chosen, names_lockspace, names_process, noted_with};
ghost use Rattle.sl_host.specs.NextHolder.{above, orphan_on};
ghost use Rattle.sl_words.specs.Words.{some_is};
ghost use Rattle.std.specs.Prelude.{find, is_some, length, map, option_map, slice_get, ◌<◌, ◌==◌, ◌≡◌, ◌≤◌};

use crate::books::Books;
use crate::host::Host;
use crate::notes::Notes;
use sl_host_state::{JobState, WaitingCall};
use sl_member::Members;
use sl_tables::{ChildState, Holder, Jobs, Sought};
use sl_text::{Data, FilePath, Name};
use sl_trace::{Command, Grant, LockspaceArg, ResourceArg, Spot};

/// Which jobs a pass goes over: all, those that name a lockspace but for one job, or those that are for a process or wait for it.
#[derive(Clone, Copy)]
pub enum Chosen {
    All,
    OfLockspace { name: Name, but: Option<u64> },
    OfProcess { process: u32 },
}

/// The types within a job. A body that carries a job over a call names them all (`_within`, which is nothing): the borrow check refuses
/// it where one is not named there, with a message that calls itself a fault.
type WithinJob = (
    Command,
    LockspaceArg,
    ResourceArg,
    WaitingCall,
    Name,
    FilePath,
    Data,
);

/// Whether a command names the lockspace.
fn names_lockspace(command: &Command, name: &Name) -> bool
    ensures { result ≡ names_lockspace name.now command.now }
{
    match command {
        Command::AddLockspace(at)
        | Command::RemLockspace(at)
        | Command::InqLockspace(at)
        | Command::HostStatus(at) => at.name == *name,
        Command::Acquire { resource, .. }
        | Command::TakeOver { resource, .. }
        | Command::Release { resource, .. }
        | Command::ReleaseOrphan(resource)
        | Command::Convert { resource, .. }
        | Command::RunProgram { resource, .. }
        | Command::Request { resource, .. }
        | Command::GetLvb { resource, .. }
        | Command::SetLvb { resource, .. } => resource.lockspace == *name,
        Command::SetKillpath { .. } | Command::Status => false,
    }
}

/// Whether a command is given for the process.
fn names_process(command: &Command, sought: u32) -> bool
    ensures { result ≡ names_process sought command.now }
{
    match command {
        Command::Acquire { process, .. }
        | Command::TakeOver { process, .. }
        | Command::Release { process, .. }
        | Command::Convert { process, .. }
        | Command::GetLvb { process, .. }
        | Command::SetLvb { process, .. }
        | Command::SetKillpath { process, .. } => *process == sought,
        _ => false,
    }
}

/// Whether it is this number.
fn is_this(number: Option<u64>, sought: u64) -> bool
    ensures { result ≡ some_is (λ k. k == sought) number }
{
    match number {
        Some(number) => number == sought,
        None => false,
    }
}

/// Whether the job is for the process, or waits for it.
fn is_of_process(job: &JobState, process: u32) -> bool
    ensures { result ≡ is_of_process_in process job.now }
{
    let given = match &job.command {
        Some(command) => names_process(command, process),
        None => false,
    };
    let waits = match job.child {
        Some(child) => child == process,
        None => false,
    };
    given || waits
}

impl Chosen {
    /// Whether the job is one of them.
    pub fn has(&self, job: &JobState) -> bool
        ensures { result ≡ is_chosen self.now job.now }
    {
        match self {
            Chosen::All => true,
            Chosen::OfLockspace { name, but } => {
                let named = match &job.command {
                    Some(command) => names_lockspace(command, name),
                    None => false,
                };
                named && !is_this(*but, job.number)
            }
            Chosen::OfProcess { process } => is_of_process(job, *process),
        }
    }
}

/// Notes the number of the job at this place among all, where it is one of those.
#[tactic(auto, using(crate::proofs::PassNotes::noted_none, crate::proofs::PassNotes::noted_some))]
fn note_at(jobs: &Jobs, place: usize, chosen: &Chosen, notes: &mut Notes<u64>)
    requires gaps { jobs.now.gaps ≡ 0 }
    requires room { length notes.old.items < notes.old.most }
    ensures { notes.new ≡ record notes.old { items = noted_with chosen.now (slice_get jobs.now.jobs place) notes.old.items } }
{
    let _within: Option<WithinJob> = None;
    match jobs.nth(place) {
        Some(job) => {
            if chosen.has(job) {
                notes.put(job.number);
            }
        }
        None => {}
    }
}

/// Notes the numbers of members.
#[tactic(auto, using(crate::proofs::PassNotes::mapped_more, crate::proofs::PassNotes::mapped_all))]
fn note_members(members: &Members, notes: &mut Notes<u64>)
    requires { length members.now.members ≤ notes.old.most }
    ensures { notes.new ≡ record notes.old { items = map (λ m. m.who.number) members.now.members } }
{
    notes.clear();
    for place in 0..members.len() {
        notes.put(members.nth(place).who().number);
    }
}

impl Books {
    /// Notes the numbers of those jobs.
    #[tactic(auto, using(crate::proofs::PassNotes::noted_more, crate::proofs::PassNotes::chosen_few, crate::proofs::PassNotes::chosen_all))]
    fn note_jobs(&mut self, chosen: &Chosen, notes: &mut Notes<u64>)
        requires { length self.old.jobs ≤ notes.old.most }
        ensures same { self.new ≡ self.old }
        ensures notes { notes.new ≡ record notes.old { items = chosen_among chosen.now self.old.jobs } }
    {
        self.jobs.pack();
        notes.clear();
        for place in 0..self.jobs.len() {
            note_at(&self.jobs, place, chosen, notes);
        }
    }
}

impl Host {
    /// Notes the numbers of its members, by which a pass goes: members may go while it is under way.
    pub fn note_members(&self, notes: &mut Notes<u64>)
        requires { length self.now.kept.members ≤ notes.old.most }
        ensures { notes.new ≡ record notes.old { items = map (λ m. m.who.number) self.now.kept.members } }
    {
        note_members(&self.members, notes);
    }

    /// Notes the numbers of those jobs. The host keeps what it keeps.
    pub fn note_jobs(&mut self, chosen: &Chosen, notes: &mut Notes<u64>)
        requires { length self.old.kept.jobs ≤ notes.old.most }
        ensures same { self.new ≡ self.old }
        ensures notes { notes.new ≡ record notes.old { items = chosen_among chosen.now self.old.kept.jobs } }
    {
        self.books.note_jobs(chosen, notes);
    }

    /// The job of this number, if it runs.
    pub fn job(&self, number: u64) -> Option<&JobState>
        ensures { option_map (λ j. j.now) result ≡ find (λ j. j.number == number) self.now.kept.jobs }
    {
        self.books.jobs.get(number)
    }

    /// The least process above this one that holds under the session.
    pub fn holder_above(&self, session: u64, last: u32) -> Option<u32>
        ensures { result ≡ least_holder (above session last) self.now.kept.holdings }
    {
        self.books.holdings.least_holder(&Sought {
            holder: Holder::Above(last),
            session: Some(session),
            spot: None,
            mode: None,
        })
    }

    /// Of the holdings of a process, the one that was granted first.
    pub fn first_of(&self, process: u32) -> Option<&Grant>
        ensures { option_map (λ g. g.now) result ≡ find (fits (sought_of process)) self.now.kept.holdings }
    {
        self.books.holdings.find(&Sought::of(process))
    }

    /// The child of this number, if there was one.
    pub fn child(&self, process: u32) -> Option<&ChildState>
        ensures { option_map (λ k. child_of k.now) result ≡ find (λ k. k.process == process) self.now.kept.children }
    {
        self.books.children.get(process)
    }

    /// The steps so far, with the one in progress.
    pub fn entries(&self) -> u64
        ensures { result ≡ self.now.kept.entries }
    {
        self.books.entries
    }

    /// The clock's reading at the step before this one, in milliseconds.
    pub fn before(&self) -> u64
        ensures { result ≡ self.now.kept.before }
    {
        self.books.before
    }

    /// Below which reading nothing is due before an input.
    pub fn quiet_until(&self) -> u64
        ensures { result ≡ self.now.kept.quiet_until }
    {
        self.books.quiet_until
    }

    /// Whether there is an orphan on an area.
    pub fn has_orphan_on(&self, spot: Spot) -> bool
        ensures { result ≡ is_some (find (fits (orphan_on spot)) self.now.kept.holdings) }
    {
        self.books.holdings.has(&Sought {
            holder: Holder::Is(0),
            session: None,
            spot: Some(spot),
            mode: None,
        })
    }
}
