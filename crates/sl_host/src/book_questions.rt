//! What is asked of a host's books when a command is decided.

ghost use Rattle.sl_host_law.specs.Decisions.CommandDecisions.{busy_refused, held_at, holds_there, is_running_child, killpath_decision, other_at, pending_refused, process_refused};
ghost use Rattle.sl_host_state.specs.StepQuestions.{stopper_in, ungranted_in};
ghost use Rattle.sl_trace.specs.Counts.{busy_among};
ghost use Rattle.sl_trace.specs.Jobs.{is_asking_lease, is_program};
ghost use Rattle.sl_tables.specs.Holdings.{fits};
ghost use Rattle.sl_trace.specs.CountLimits.{most_children, most_holders};
ghost use Rattle.sl_trace.specs.Traces.{is_orphan, is_shared};
ghost use Rattle.sl_host.specs.BookQuestions.{alone, held_under, sought_on};
ghost use Rattle.sl_words.specs.Words.{least};
ghost use Rattle.std.specs.List.{list_any};
ghost use Rattle.std.specs.Prelude.{filter, find, length, map, nat_le, not, option_map, ◌%◌, ◌&&◌, ◌+◌, ◌≡◌};

use crate::books::Books;
use sl_due::Decision;
use sl_tables::{Holder, Sought};
use sl_text::FilePath;
use sl_trace::{Grant, Limited, Mode, Reply, Spot};

/// The greatest number of a process that is no child.
const MOST_PROCESSES: u32 = 1_000_000;

/// Holdings of a machine, with the jobs that may become such.
const MOST_HOLDERS: u64 = 1024;

/// Child numbers of a host.
const MOST_CHILDREN: u64 = 1_000_000;

/// Processes with a kill program.
const MOST_KILLPATHS: usize = 1024;

/// Whether two counts together come to so many.
fn reaches(most: u64, one: u64, other: u64) -> bool
    ensures { result ≡ nat_le most (one + other) }
{
    most <= one || most - one <= other
}

impl Books {
    /// Whether the process is a running child.
    #[tactic(auto, using(crate::proofs::QuestionsStand::runs, crate::proofs::QuestionsStand::runs_not))]
    fn is_running_child(&self, process: u32) -> bool
        ensures { result ≡ is_running_child (alone self.now) process }
    {
        match self.children.get(process) {
            Some(child) => child.started && !child.exited,
            None => false,
        }
    }

    /// A process above 1000000 that is no running child is refused.
    pub fn process_refused(&self, process: u32) -> Option<Reply>
        ensures { result ≡ process_refused (alone self.now) process }
    {
        if process <= MOST_PROCESSES || self.is_running_child(process) {
            None
        } else {
            Some(Reply::NoProcess { process })
        }
    }

    /// The process, where it holds on the area itself.
    #[tactic(auto, using(crate::proofs::QuestionsStand::holds_at))]
    pub fn holds_there(&self, at: &Spot, process: u32) -> Option<u32>
        ensures { result ≡ holds_there (alone self.now) at.now process }
    {
        let sought = Sought {
            holder: Holder::Is(process),
            session: None,
            spot: Some(*at),
            mode: None,
        };
        if self.holdings.has(&sought) {
            Some(process)
        } else {
            None
        }
    }

    /// The least other process that holds on the area.
    #[tactic(auto, using(crate::proofs::QuestionsStand::others_at))]
    pub fn other_at(&self, at: &Spot, process: u32) -> Option<u32>
        ensures { result ≡ other_at (alone self.now) at.now process }
    {
        self.holdings.least_holder(&Sought {
            holder: Holder::IsNot(process),
            session: None,
            spot: Some(*at),
            mode: None,
        })
    }

    /// The least process on the area whose holding conflicts.
    #[tactic(auto, using(crate::proofs::QuestionsStand::all_conflict, crate::proofs::QuestionsStand::exclusive_conflict))]
    fn conflicting(&self, at: &Spot, shared: bool) -> Option<u32>
        ensures { result ≡ least (map (λ g. g.process) (filter (λ g. not (shared && is_shared g.mode)) (held_at (alone self.now) at.now))) }
    {
        let mode = if shared { Some(Mode::Exclusive) } else { None };
        self.holdings.least_holder(&Sought {
            holder: Holder::Anyone,
            session: None,
            spot: Some(*at),
            mode,
        })
    }

    /// The process in the way: the asking one, where it holds on the area, else the least whose holding conflicts.
    fn busy(&self, at: &Spot, asking: Option<u32>, shared: bool) -> Option<u32>
        ensures { result ≡ busy_among (held_at (alone self.now) at.now) asking shared }
    {
        let asker = match asking {
            Some(process) => self.holds_there(at, process),
            None => None,
        };
        match asker {
            Some(process) => Some(process),
            None => self.conflicting(at, shared),
        }
    }

    /// The refusal by a holding in the way: of the asking process itself, or of another in a mode that does not go with what is asked.
    pub fn busy_refused(&self, at: &Spot, asking: Option<u32>, shared: bool) -> Option<Reply>
        ensures { result ≡ busy_refused (alone self.now) at.now asking shared }
    {
        match self.busy(at, asking, shared) {
            Some(process) => Some(Reply::Busy { process }),
            None => None,
        }
    }

    /// Whether one more holder would pass the limit.
    pub fn is_full_of_holders(&self) -> bool
        ensures { result ≡ nat_le most_holders (length self.now.holdings + ungranted_in (alone self.now) is_asking_lease) }
    {
        reaches(MOST_HOLDERS, self.holdings.len() as u64, self.jobs.asking())
    }

    /// Whether one more child would pass the limit.
    pub fn is_full_of_children(&self) -> bool
        ensures { result ≡ nat_le most_children (self.now.started + ungranted_in (alone self.now) is_program) }
    {
        reaches(MOST_CHILDREN, self.started as u64, self.jobs.programs())
    }

    /// The kill program that is to be started in place of a term, while a child number is left.
    pub fn stopper(&self, process: u32) -> Option<FilePath>
        ensures { result ≡ stopper_in (alone self.now) process }
    {
        match self.programs.get(process) {
            Some(program) if !self.is_full_of_children() => Some(*program),
            _ => None,
        }
    }

    /// A call on the area that is unanswered refuses.
    pub fn pending_refused(&self, at: &Spot) -> Option<Reply>
        requires { at.now.base % self.now.config.sizes.area ≡ 0 }
        ensures { result ≡ pending_refused (alone self.now) at.now }
    {
        match self.unanswered.pending(at) {
            Some(call) => Some(Reply::Pending { call }),
            None => None,
        }
    }

    /// What a `set_killpath` comes to: the process must be able to act, and the count of programs has a limit.
    pub fn decide_killpath(&self, process: u32) -> Decision
        ensures { result ≡ killpath_decision (alone self.now) process }
    {
        if let Some(reply) = self.process_refused(process) {
            return Decision::Replies(reply);
        }
        if self.programs.get(process).is_none() && self.programs.len() >= MOST_KILLPATHS {
            return Decision::Replies(Reply::Limit {
                which: Limited::Killpaths,
            });
        }
        Decision::Replies(Reply::Done)
    }

    /// The first holding of a session on an area, of these processes, in this mode.
    pub fn held(
        &self,
        session: u64,
        at: &Spot,
        holder: Holder,
        mode: Option<Mode>,
    ) -> Option<&Grant>
        ensures { option_map (λ g. g.now) result ≡ find (fits (sought_on holder session at.now mode)) self.now.holdings }
    {
        self.holdings.find(&Sought {
            holder,
            session: Some(session),
            spot: Some(*at),
            mode,
        })
    }

    /// Whether the session has an orphan: nobody could be told to give it up, so it can't be left.
    #[tactic(auto, using(crate::proofs::QuestionsStand::orphans_under))]
    pub fn has_orphan(&self, session: u64) -> bool
        ensures { result ≡ list_any is_orphan (held_under session self.now.holdings) }
    {
        let sought = Sought {
            holder: Holder::Is(0),
            session: Some(session),
            spot: None,
            mode: None,
        };
        self.holdings.has(&sought)
    }
}
