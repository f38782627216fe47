//! The cell: one machine's daemon under its lock, shared by the machine's threads.

ghost use Rattle.sl_book.specs.Closings.{AreBelow, AreExact};
ghost use Rattle.sl_cell.specs.Closings.{IsCaseOfSome};
ghost use Rattle.sl_cell.specs.Told.{Gave, IsTaken, IsTested, IsUnasked};
ghost use Rattle.sl_cell.specs.declared.lead.NotApplied.{NotApplied as Why};
ghost use Rattle.sl_book.specs.Logs.{entries};
ghost use Rattle.sl_cell.specs.Histories.{trace_of};
ghost use Rattle.sl_run.specs.Headers.{IsHeader};
ghost use Rattle.sl_run.specs.Lawful.{IsSetting};
ghost use Rattle.sl_trace.specs.Traces.{IsTrace};
ghost use Rattle.sl_words.specs.Bounds.{moments};
ghost use Rattle.sl_world_state.specs.Daemons.{begun_with, read_of};
ghost use Rattle.std.specs.Prelude.{Err, IfErr, IfOk, IfSome, OnErr, OnOk, length, [], ℕ, ◌++◌, ◌<◌, ◌^◌, ◌≡◌};
ghost use mathlib.Core.List.{IsPrefix};

use crate::closing::Differ;
use crate::kept::Kept;
use crate::lead::{Broken, NotApplied};
use crate::part::Part;
use crate::station::{Book, Front, Opened, Seat, Station};
use crate::teller::Teller;
use sl_run::Header;
use sl_sector::Images;
use sl_trace::{Call, Effects, Entry, Input};
use sl_world_state::{Daemon, Site};
use std::alloc::{AllocError, Global};
use std::sync::{Mutex, Wait};

/// One machine's daemon under its lock, and the book of the machine's history.
#[derive(Drop)]
pub struct HostCell<D: Teller, J: Station> {
    book: Book<J>,
    kept: Mutex<Kept<D, J>>,
}

impl<D: Teller, J: Station> HostCell<D, J> {
    /// A daemon to which nothing came yet, and the front of one who has seen nothing. An `Err` is want of memory.
    pub fn new(
        alloc: Global,
        header: &Header,
        site: Site,
        opened: Opened,
    ) -> Result<(HostCell<D, J>, Front<J>), AllocError>
        requires header { IsHeader header.now }
        requires setting { IsSetting J.setting }
        requires site { J.setting ≡ begun_with D.Daemon.commands header.now site }
        requires book { opened.seen.book ≡ J.book }
        ensures { IfOk result (λ r. r.1 ≡ []) }
    {
        let (book, front) = opened.named::<J>();
        let kept = Kept::new(alloc, header, site, &front)?;
        let cell = HostCell {
            book,
            kept: Mutex::new(kept),
        };
        Ok((cell, front))
    }

    /// The seat of a thread with this number, which gave nothing and has seen so much. It takes no memory.
    pub fn seat(&self, by: u32, front: &Front<J>) -> Seat<J>
        ensures { result ≡ record { by = by; count = 0; taken = 0; front = front.now } }
    {
        Seat::new(by, front.again())
    }

    /// The input comes to the daemon, at this reading or the last one if that is later. With an answer the seat has given it: its entry is the last
    /// of what the seat has seen now. `Unasked` says that it answers nothing that is open in what the seat has seen now; `NoMemory` is want of
    /// memory, or of numbers; what `Broken` is says `NotApplied`. With these two the seat is as it was. Where the input is the answer of a read, its
    /// sectors may be given beside it: what they spell is then not worked out under the lock.
    pub fn apply<R: Wait>(
        &self,
        rt: &R,
        seat: &mut Seat<J>,
        now: u64,
        input: Input,
        sectors: Option<&Images>,
    ) -> Result<Effects, NotApplied>
        requires time { now < moments }
        requires sectors { IfSome sectors (λ i. (call : ℕ) × (input ≡ read_of call i.now)) }
        ensures gave { IfOk result (λ fx. Gave seat.old seat.new now input fx) }
        ensures unasked { result ≡ Err Why.Unasked → IsUnasked J.setting seat.old seat.new input }
        ensures memory { result ≡ Err Why.NoMemory → seat.new ≡ seat.old }
        ensures broken { result ≡ Err Why.Broken → seat.new ≡ seat.old }
    {
        self.kept
            .lock(rt)
            .step(&self.book, seat, now, input, sectors)
    }

    /// The next call of the part, in the order in which they were made, for a thread that took all before it; and none exactly where all were taken.
    /// `Broken` says that another thread took some, or that the history is longer than what led to the daemon. The seat is as it was then.
    pub fn take<R: Wait>(
        &self,
        rt: &R,
        seat: &mut Seat<J>,
        part: Part,
    ) -> Result<Option<Call>, Broken>
        ensures taken { IfOk result (λ o. IsTaken part seat.old seat.new o) }
        ensures broken { OnErr result (seat.new ≡ seat.old) }
    {
        self.kept.lock(rt).take(seat, part)
    }

    /// The watchdog daemon's test of the machine's connections, which the history leaves that the seat has seen now. With `Broken` it is as it was.
    pub fn test<R: Wait>(&self, rt: &R, seat: &mut Seat<J>, now: u64) -> Result<bool, Broken>
        ensures tested { IfOk result (λ answer. IsTested J.setting seat.old seat.new now answer) }
        ensures broken { OnErr result (seat.new ≡ seat.old) }
    {
        self.kept.lock(rt).test(seat, now)
    }

    /// The entries that came since this one was handed some last: it has all of them now. `Broken` says that others were handed out to another
    /// one. The front is as it was then.
    pub fn hand_out<R: Wait>(&self, rt: &R, mine: &mut Front<J>) -> Result<Vec<Entry>, Broken>
        ensures handed { IfOk result (λ v. entries mine.new ≡ entries mine.old ++ v.items) }
        ensures grows { OnOk result (IsPrefix mine.old mine.new) }
        ensures broken { OnErr result (mine.new ≡ mine.old) }
    {
        self.kept.lock(rt).hand_out(mine)
    }

    /// Whether this front is the whole history. Then a daemon stood for it; each of its entries has the number of a seat, and each seat, with its
    /// place as its number, counted just the entries of its number. Else a case in which these seats and this front differ from a history that the
    /// daemon could have.
    pub fn close(self, seats: &[Seat<J>], mine: &Front<J>) -> Result<(), Differ>
        requires { length seats.now < 2 ^ 32 }
        ensures stands { OnOk result ((d : D) × D.Daemon.stands d J.setting (trace_of mine.now)) }
        ensures trace { OnOk result (IsTrace J.setting (trace_of mine.now)) }
        ensures exact { OnOk result (AreExact 0 seats.now mine.now) }
        ensures below { OnOk result (AreBelow (length seats.now) mine.now) }
        ensures differ { IfErr result (IsCaseOfSome J.setting seats.now mine.now) }
    {
        let HostCell { book: _, kept } = self;
        kept.into_inner().close(seats, mine)
    }
}
