//! Exits and starts, heard; a step begins, and is over.

ghost use Rattle.sl_host_state.specs.HeardInputs.{begun, heard_exit, heard_start, quiet_to, rested};
ghost use Rattle.sl_host.specs.Books.{AreFew, no_buffers};
ghost use Rattle.sl_host.specs.Host.{Becomes, SameMost, SameRun};
ghost use Rattle.std.specs.Prelude.{◌+◌, ◌<◌, ◌^◌, ◌≡◌};

use crate::buffers::Buffers;
use crate::host::Host;
use sl_trace::Effects;
use std::alloc::Global;

impl Host {
    /// A process has exited: a child of this number has, unless the step starts it, and its kill program goes.
    pub fn hear_exit(&mut self, process: u32)
        ensures state { Becomes self.old self.new (heard_exit process) }
        ensures left { (self.new.left ≡ self.old.left) × (self.new.calls ≡ self.old.calls) }
        ensures run { SameRun self.old self.new }
    {
        self.books.exit(process);
    }

    /// A start is answered, unless the step makes it.
    pub fn hear_start(&mut self, process: u32, ok: bool)
        ensures state { Becomes self.old self.new (heard_start process ok) }
        ensures left { (self.new.left ≡ self.old.left) × (self.new.calls ≡ self.old.calls) }
        ensures run { SameRun self.old self.new }
    {
        self.books.spawned(process, ok);
    }

    /// A step begins at the reading `now`: recoveries begin that are due by time.
    #[tactic(auto, using(crate::proofs::HearingsStand::begun_follows))]
    pub fn begin(&mut self, now: u64)
        requires entries { self.old.kept.entries < 2 ^ 63 }
        requires moment { now + self.old.kept.config.grace < 2 ^ 64 }
        ensures state { Becomes self.old self.new (begun now) }
        ensures left { (self.new.left ≡ self.old.left) × (self.new.calls ≡ self.old.calls) }
        ensures run { (self.new.kept.config ≡ self.old.kept.config) × (self.new.kept.reading ≡ now) }
        ensures most { SameMost self.old self.new }
    {
        let (entries, kills) = (self.books.entries, now + self.books.config.grace);
        if self.members.is_late(now) {
            self.books.lower(kills);
        }
        self.members.begins(now, entries);
        self.books.count(now);
    }

    /// Nothing is due by time before an input below this reading.
    pub fn quiet_to(&mut self, moment: u64)
        ensures state { Becomes self.old self.new (quiet_to moment) }
        ensures left { (self.new.left ≡ self.old.left) × (self.new.calls ≡ self.old.calls) }
        ensures run { SameRun self.old self.new }
    {
        self.books.quiet_until = moment;
    }

    /// A step is over: its effects are taken out, and the next call is the first of the next step. Nothing is left to be made until memory
    /// is taken anew; the lists in which effects were have the memory of `spare`.
    pub fn rest(&mut self, alloc: Global, spare: &mut Buffers) -> Effects
        requires { spare.old ≡ no_buffers }
        ensures effects { result ≡ self.old.kept.made }
        ensures few { AreFew self.old.most self.old.most_calls result }
        ensures state { Becomes self.old self.new rested }
        ensures left { (self.new.left ≡ 0) × (self.new.calls ≡ 0) }
        ensures run { (self.new.kept.config ≡ self.old.kept.config) × (self.new.kept.reading ≡ self.old.kept.reading) }
        ensures most { (self.new.most ≡ 0) × (self.new.most_calls ≡ 0) × (self.new.seats ≡ self.old.seats) }
        ensures spare { spare.new ≡ spare.old }
    {
        self.books.first_call = self.books.next_call();
        self.books.made.take(alloc, spare)
    }
}
