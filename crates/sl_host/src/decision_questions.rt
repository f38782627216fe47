//! What is asked of a host when a command is decided: each question that its books answer.

ghost use Rattle.sl_host_law.specs.Decisions.CommandDecisions.{busy_refused, holds_there, killpath_decision, other_at, pending_refused, process_refused};
ghost use Rattle.sl_host_state.specs.StepQuestions.{ungranted_in};
ghost use Rattle.sl_trace.specs.Jobs.{is_asking_lease, is_program};
ghost use Rattle.sl_trace.specs.CountLimits.{most_children, most_holders};
ghost use Rattle.sl_trace.specs.Traces.{is_orphan};
ghost use Rattle.sl_host.specs.BookQuestions.{held_under, state_in};
ghost use Rattle.std.specs.List.{list_any};
ghost use Rattle.std.specs.Prelude.{length, nat_le, ◌%◌, ◌+◌, ◌≡◌};

use crate::host::Host;
use sl_due::Decision;
use sl_trace::{Reply, Spot};

impl Host {
    /// How many sessions there have been: the number of the next one.
    pub fn born(&self) -> u64
        ensures { result ≡ self.now.kept.born }
    {
        self.books.born()
    }

    /// A process above 1000000 that is no running child is refused.
    pub fn process_refused(&self, process: u32) -> Option<Reply>
        ensures { result ≡ process_refused (state_in self.now.kept) process }
    {
        self.books.process_refused(process)
    }

    /// A holding in the way refuses: the asking process's own on the area, else the least process's whose holding conflicts.
    pub fn busy_refused(&self, at: &Spot, asking: Option<u32>, shared: bool) -> Option<Reply>
        ensures { result ≡ busy_refused (state_in self.now.kept) at.now asking shared }
    {
        self.books.busy_refused(at, asking, shared)
    }

    /// A call on the area that is unanswered refuses.
    pub fn pending_refused(&self, at: &Spot) -> Option<Reply>
        requires { at.now.base % self.now.kept.config.sizes.area ≡ 0 }
        ensures { result ≡ pending_refused (state_in self.now.kept) at.now }
    {
        self.books.pending_refused(at)
    }

    /// The process, where it holds on the area itself.
    pub fn holds_there(&self, at: &Spot, process: u32) -> Option<u32>
        ensures { result ≡ holds_there (state_in self.now.kept) at.now process }
    {
        self.books.holds_there(at, process)
    }

    /// The least other process that holds on the area.
    pub fn other_at(&self, at: &Spot, process: u32) -> Option<u32>
        ensures { result ≡ other_at (state_in self.now.kept) at.now process }
    {
        self.books.other_at(at, process)
    }

    /// Whether the session has an orphan: nobody could be told to give it up, so it can't be left.
    pub fn has_orphan(&self, session: u64) -> bool
        ensures { result ≡ list_any is_orphan (held_under session self.now.kept.holdings) }
    {
        self.books.has_orphan(session)
    }

    /// Whether one more holder would pass the limit.
    pub fn is_full_of_holders(&self) -> bool
        ensures { result ≡ nat_le most_holders (length self.now.kept.holdings + ungranted_in (state_in self.now.kept) is_asking_lease) }
    {
        self.books.is_full_of_holders()
    }

    /// Whether one more child would pass the limit.
    pub fn is_full_of_children(&self) -> bool
        ensures { result ≡ nat_le most_children (self.now.kept.started + ungranted_in (state_in self.now.kept) is_program) }
    {
        self.books.is_full_of_children()
    }

    /// What a `set_killpath` comes to: the process must be able to act, and the count of programs has a limit.
    pub fn decide_killpath(&self, process: u32) -> Decision
        ensures { result ≡ killpath_decision (state_in self.now.kept) process }
    {
        self.books.decide_killpath(process)
    }
}
