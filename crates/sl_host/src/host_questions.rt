//! What a host is asked by those who act on it.

ghost use Rattle.sl_tables.specs.Holdings.{fits};
ghost use Rattle.sl_trace.specs.CountLimits.{most_lockspaces};
ghost use Rattle.sl_trace.specs.Traces.{first_child};
ghost use Rattle.sl_host.specs.BookQuestions.{leases_in, most_counted, sought_on};
ghost use Rattle.sl_host.specs.Views.{books_of};
ghost use Rattle.std.specs.List.{list_any};
ghost use Rattle.std.specs.Prelude.{bytes_eq, find, length, min, option_and_then, option_map, ◌+◌, ◌==◌, ◌≡◌, ◌≤◌};

use crate::books::{Books, Config};
use crate::host::Host;
use sl_member::Members;
use sl_tables::{Holder, Jobs};
use sl_text::Name;
use sl_trace::{Command, Grant, Mode, Spot};

/// Whether there is a job of this number.
#[tactic(auto, using(crate::proofs::FoundInList::one_found, crate::proofs::FoundInList::none_found))]
fn has_job(jobs: &Jobs, number: u64) -> bool
    ensures { result ≡ list_any (λ j. j.number == number) jobs.now.jobs }
{
    match jobs.get(number) {
        Some(_) => true,
        None => false,
    }
}

/// The leases of the members together, or the greatest count.
#[tactic(auto, using(crate::proofs::CountsStand::counted_more, crate::proofs::CountsStand::counted_all))]
fn leases_of(members: &Members) -> usize
    ensures { result ≡ min (leases_in members.now.members) most_counted }
{
    let mut leases: usize = 0;
    for place in 0..members.len() {
        leases = leases.saturating_add(members.nth(place).leases().len());
    }
    leases
}

impl Host {
    /// How many jobs run.
    pub fn job_count(&self) -> usize
        ensures { result ≡ length self.now.kept.jobs }
    {
        self.books.jobs.len()
    }

    /// How many holdings there are.
    pub fn holding_count(&self) -> usize
        ensures { result ≡ length self.now.kept.holdings }
    {
        self.books.holdings.len()
    }

    /// How many leases the members have together, or the greatest count.
    pub fn lease_count(&self) -> usize
        ensures { result ≡ min (leases_in self.now.kept.members) most_counted }
    {
        leases_of(&self.members)
    }

    /// What the host is made of: times, grace, sizes, machine and name.
    pub fn config(&self) -> &Config
        ensures { result.now ≡ self.now.kept.config }
    {
        &self.books.config
    }

    /// All that the host keeps but its members: calls, jobs, holdings, children, connections, numbers.
    pub fn books(&self) -> &Books
        ensures { result.now ≡ books_of self.now }
    {
        &self.books
    }

    /// The sessions whose lockspaces are in use, by the lockspaces' names.
    pub fn members(&self) -> &Members
        ensures members { result.now.members ≡ self.now.kept.members }
        ensures run { result.now.run ≡ record { timing = self.now.kept.config.timing; sizes = self.now.kept.config.sizes; host = self.now.kept.config.name } }
    {
        &self.members
    }

    /// For how many members there is memory: there are no more of them.
    pub fn seats(&self) -> usize
        ensures exact { result ≡ self.now.seats }
        ensures few { length self.now.kept.members ≤ result }
        ensures many { most_lockspaces ≤ result }
    {
        self.members.most()
    }

    /// How many more calls the step may make: no more than it makes in all.
    pub fn calls_left(&self) -> usize
        ensures exact { result ≡ self.now.calls }
        ensures few { result ≤ self.now.most_calls }
    {
        self.books.calls_left()
    }

    /// The reading of the step in progress.
    pub fn reading(&self) -> u64
        ensures { result ≡ self.now.kept.reading }
    {
        self.books.reading
    }

    /// Whether a job of this number runs.
    pub fn runs(&self, job: u64) -> bool
        ensures { result ≡ list_any (λ j. j.number == job) self.now.kept.jobs }
    {
        has_job(&self.books.jobs, job)
    }

    /// What the command of a running job says.
    pub fn command_of(&self, job: u64) -> Option<Command>
        ensures { result ≡ option_and_then (λ j. j.command) (find (λ j. j.number == job) self.now.kept.jobs) }
    {
        match self.books.jobs.get(job) {
            Some(job) => job.command,
            None => None,
        }
    }

    /// Whether the connection of this lockspace to the watchdog daemon stands.
    pub fn is_connected(&self, lockspace: &Name) -> bool
        ensures { result ≡ list_any (λ n. bytes_eq n lockspace.now) self.now.kept.connected }
    {
        self.books.connected.has(lockspace)
    }

    /// The first holding of a session on an area, of these processes, in this mode.
    pub fn held(
        &self,
        session: u64,
        at: &Spot,
        holder: Holder,
        mode: Option<Mode>,
    ) -> Option<&Grant>
        ensures { option_map (λ g. g.now) result ≡ find (fits (sought_on holder session at.now mode)) self.now.kept.holdings }
    {
        self.books.held(session, at, holder, mode)
    }

    /// The process number of the next child: above all that processes outside may have.
    pub fn next_child(&self) -> u32
        ensures { result ≡ first_child + self.now.kept.started }
    {
        self.books.next_child()
    }
}
