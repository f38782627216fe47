//! What lies under the lock: the daemon with the front of its history, and what is kept of the history beside it.

ghost use Rattle.sl_book.specs.Closings.{AreBelow, AreExact};
ghost use Rattle.sl_cell.specs.Closings.{IsCase};
ghost use Rattle.sl_cell.specs.Told.{Gave, IsTaken, IsTested, IsUnasked};
ghost use Rattle.sl_cell.specs.declared.lead.NotApplied.{NotApplied as Why};
ghost use Rattle.sl_book.specs.Logs.{entries};
ghost use Rattle.sl_cell.specs.Histories.{trace_of};
ghost use Rattle.sl_run.specs.Headers.{IsHeader};
ghost use Rattle.sl_run.specs.Lawful.{IsSetting};
ghost use Rattle.sl_trace.specs.Traces.{IsTrace};
ghost use Rattle.sl_words.specs.Bounds.{moments};
ghost use Rattle.sl_world_state.specs.Daemons.{begun_with, read_of};
ghost use Rattle.std.specs.Prelude.{Err, IfErr, IfOk, IfSome, OnErr, OnOk, length, true, [], ℕ, ◌++◌, ◌<◌, ◌^◌, ◌≡◌};
ghost use mathlib.Core.List.{IsPrefix};

use crate::closing::{Differ, check_seats, is_torn};
use crate::lead::{Broken, Lead, NotApplied};
use crate::part::Part;
use crate::rest::Rest;
use crate::station::{Book, Front, Seat, Station};
use crate::teller::Teller;
use sl_run::Header;
use sl_sector::Images;
use sl_trace::{Call, Effects, Entry, Input};
use sl_wdmd::Wdmd;
use sl_world_state::{Daemon, Site};
use std::alloc::{AllocError, Global};
use std::marker::Model;

/// What lies under the lock. So much of the history was handed out.
#[derive(Drop)]
pub(crate) struct Kept<D: Teller, J: Station> {
    lead: Lead<D, J>,
    rest: Rest,
    handed: Front<J>,
}

impl<D: Teller, J: Station> Model for Kept<D, J> {
    ghost use Rattle.sl_cell.specs.Cells.{IsRest, KeptState, left_in};

    ghost Value = { KeptState };

    ghost view = { λ k. record {
      whole = k.lead.whole;
      history = k.lead.history;
      delta = left_in k.rest.delta;
      resource = left_in k.rest.resource;
      handed = k.handed;
      waiting = k.rest.waiting.items;
    } };

    ghost invariant = { λ k. IsRest J.setting k.lead.history k.handed k.rest };
}

impl<D: Teller, J: Station> Kept<D, J> {
    /// A daemon to which nothing came yet. An `Err` is want of memory.
    #[tactic(auto, using(crate::proofs::LeadLaws::given_below, crate::proofs::RestLaws::rest_new))]
    pub(crate) fn new(
        alloc: Global,
        header: &Header,
        site: Site,
        front: &Front<J>,
    ) -> Result<Kept<D, J>, AllocError>
        requires header { IsHeader header.now }
        requires setting { IsSetting J.setting }
        requires site { J.setting ≡ begun_with D.Daemon.commands header.now site }
        requires front { front.now ≡ [] }
        ensures history { IfOk result (λ k. k.history ≡ []) }
        ensures whole { IfOk result (λ k. k.whole ≡ true) }
    {
        let connections = Wdmd::given(alloc, &header.timing, site.given.as_slice())?;
        Ok(Kept {
            lead: Lead::new(alloc, header, site, front.again())?,
            rest: Rest::new(alloc, connections),
            handed: front.again(),
        })
    }

    /// The input comes to the daemon, at this reading or the last one if that is later. With an answer the seat has given it: its entry is the last
    /// of what the seat has seen now. An input that answers nothing that is open changes nothing here. Behind a step the memory of one step more
    /// stands by, where there is any: then a recovery signals and kills though no memory is left.
    pub(crate) fn step(
        &mut self,
        book: &Book<J>,
        seat: &mut Seat<J>,
        now: u64,
        input: Input,
        sectors: Option<&Images>,
    ) -> Result<Effects, NotApplied>
        requires time { now < moments }
        requires sectors { IfSome sectors (λ i. (call : ℕ) × (input ≡ read_of call i.now)) }
        ensures gave { IfOk result (λ fx. Gave seat.old seat.new now input fx) }
        ensures history { OnOk result (self.new.history ≡ seat.new.front) }
        ensures unasked { result ≡ Err Why.Unasked → IsUnasked J.setting seat.old seat.new input }
        ensures memory { result ≡ Err Why.NoMemory → (self.new ≡ self.old) × (seat.new ≡ seat.old) }
        ensures broken { result ≡ Err Why.Broken → seat.new ≡ seat.old }
        ensures err { OnErr result (self.new.history ≡ self.old.history) }
    {
        if !seat.is_behind(self.lead.front()) {
            return Err(NotApplied::Broken);
        }
        let most = self.lead.most();
        self.rest.reserve(&most)?;
        match self.lead.step(book, seat.by(), now, input, sectors) {
            Ok((signed, effects)) => {
                seat.gave(self.lead.front(), &signed);
                self.rest.note(signed.into_entry(), &effects);
                // places for the next step stand by; a refusal is no answer of this one
                let _places = self.rest.reserve(&self.lead.most());
                Ok(effects)
            }
            Err(NotApplied::Unasked) => {
                let taken = seat.taken();
                seat.see(self.lead.front(), taken);
                Err(NotApplied::Unasked)
            }
            Err(why) => Err(why),
        }
    }

    /// The next call of the part, in the order in which they were made, and none exactly where all were taken.
    pub(crate) fn take(&mut self, seat: &mut Seat<J>, part: Part) -> Result<Option<Call>, Broken>
        ensures taken { IfOk result (λ o. IsTaken part seat.old seat.new o) }
        ensures history { self.new.history ≡ self.old.history }
        ensures broken { OnErr result ((self.new ≡ self.old) × (seat.new ≡ seat.old)) }
    {
        if !seat.is_behind(self.lead.front()) {
            return Err(Broken);
        }
        if self.rest.taken(part) != seat.taken() {
            return Err(Broken);
        }
        let _most = self.lead.calls();
        let call = self.rest.next(part);
        seat.see(self.lead.front(), self.rest.taken(part));
        Ok(call)
    }

    /// The watchdog daemon's test of the machine's connections.
    pub(crate) fn test(&self, seat: &mut Seat<J>, now: u64) -> Result<bool, Broken>
        ensures tested { IfOk result (λ answer. IsTested J.setting seat.old seat.new now answer) }
        ensures history { OnOk result (self.now.history ≡ seat.new.front) }
        ensures broken { OnErr result (seat.new ≡ seat.old) }
    {
        if !seat.is_behind(self.lead.front()) {
            return Err(Broken);
        }
        let taken = seat.taken();
        seat.see(self.lead.front(), taken);
        Ok(self.rest.test(now))
    }

    /// Hands out the entries that wait, to one who has what was handed out before. It takes no memory.
    pub(crate) fn hand_out(&mut self, mine: &mut Front<J>) -> Result<Vec<Entry>, Broken>
        ensures handed { IfOk result (λ v. entries mine.new ≡ entries mine.old ++ v.items) }
        ensures grows { OnOk result (IsPrefix mine.old mine.new) }
        ensures all { OnOk result ((mine.new ≡ self.old.history) × (self.new.waiting ≡ [])) }
        ensures history { self.new.history ≡ self.old.history }
        ensures broken { OnErr result ((self.new ≡ self.old) × (mine.new ≡ mine.old)) }
    {
        if !self.handed.is_same(mine) {
            return Err(Broken);
        }
        self.handed = self.lead.front().again();
        *mine = self.lead.front().again();
        Ok(self.rest.take_waiting())
    }

    /// Whether all was handed out to this one, the daemon stands for it, and the seats' counts make it up; else what differs.
    pub(crate) fn close(self, seats: &[Seat<J>], mine: &Front<J>) -> Result<(), Differ>
        requires { length seats.now < 2 ^ 32 }
        ensures stands { OnOk result ((d : D) × D.Daemon.stands d J.setting (trace_of mine.now)) }
        ensures trace { IsTrace J.setting (trace_of self.history) }
        ensures whole { OnOk result ((self.history ≡ mine.now) × (self.waiting ≡ [])) }
        ensures exact { OnOk result (AreExact 0 seats.now mine.now) }
        ensures below { OnOk result (AreBelow (length seats.now) mine.now) }
        ensures differ { IfErr result (IsCase self seats.now mine.now) }
    {
        let Kept {
            lead,
            rest: _,
            handed,
        } = self;
        let (all, whole) = lead.end();
        if is_torn(whole, &all, &handed, mine) {
            return Err(Differ::Broken { entries: all.len() });
        }
        check_seats(seats, &all)
    }
}
