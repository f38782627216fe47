//! A daemon with the front of the history that led to it.

ghost use Rattle.sl_cell.specs.Leads.{HasNumbers, IsEntry, IsFew, IsMade, IsReady, signed_of};
ghost use Rattle.sl_cell.specs.Parts.{calls_of};
ghost use Rattle.sl_cell.specs.declared.lead.NotApplied.{NotApplied as Why};
ghost use Rattle.sl_cell.specs.declared.part.Part.{Part as PartOf};
ghost use Rattle.sl_book.specs.Logs.{entries};
ghost use Rattle.sl_cell.specs.Histories.{trace_of};
ghost use Rattle.sl_run.specs.Headers.{IsHeader};
ghost use Rattle.sl_run.specs.Lawful.{IsSetting};
ghost use Rattle.sl_sector.specs.Images.{Run};
ghost use Rattle.sl_trace.specs.Traces.{IsTrace, Setting, Trace, is_expected, takes_number};
ghost use Rattle.sl_words.specs.Bounds.{moments};
ghost use Rattle.sl_words.specs.Words.{greatest};
ghost use Rattle.sl_world_state.specs.Daemons.{IsNumbered, IsStep, MayCome, begun_with, entry_of, read_of};
ghost use Rattle.sl_world_state.specs.declared.daemon.Most.{Most};
ghost use Rattle.std.specs.Prelude.{Err, IfOk, IfSome, IsFalse, IsOk, IsTrue, OnErr, OnOk, false, if◌then◌else◌, length, map, true, [], ℕ, ◌++◌, ◌+◌, ◌<◌, ◌∷◌, ◌≡◌, ◌≤◌};

use crate::station::{Book, Front, Signed, Station};
use crate::step_copies::Spare;
use crate::teller::Teller;
use sl_run::Header;
use sl_sector::Images;
use sl_trace::{Effects, Entry, Given, Input, Numbers};
use sl_world_state::{Daemon, Most, Site};
use std::alloc::{AllocError, Global};
use std::marker::Model;

/// The history is longer than the one that led to the daemon: somebody else has written in its book. No run was seen to end so; but that it
/// can't is not known under the lock.
#[derive(Clone, Copy)]
pub struct Broken;

/// Why an input was not applied; the cell is as before.
#[derive(Clone, Copy)]
pub enum NotApplied {
    /// It answers no call and no start that is open, so it may not come.
    Unasked,
    /// For want of memory, or of numbers.
    NoMemory,
    /// The history is longer than the one that led to the daemon, now or before.
    Broken,
}

impl From<AllocError> for NotApplied {
    ghost use Rattle.sl_cell.specs.declared.lead.NotApplied.{NotApplied};
    ghost use Rattle.std.specs.Prelude.{◌≡◌};

    ghost from_gives = { λ _ r. r ≡ NotApplied.NoMemory };

    fn from(_: AllocError) -> NotApplied {
        NotApplied::NoMemory
    }
}

/// A daemon and the front of its history, with its last reading and its next numbers. Where an entry could not be added to the history the daemon
/// is not whole any more, and makes no further step.
#[derive(Drop)]
pub(crate) struct Lead<D: Teller, J: Station> {
    alloc: Global,
    daemon: D,
    front: Front<J>,
    whole: bool,
    reading: u64,
    next: Numbers,
    spare: Spare,
}

impl<D: Teller, J: Station> Model for Lead<D, J> {
    ghost use Rattle.sl_cell.specs.Leads.{IsLead, LeadState};

    ghost Value = { LeadState D };

    ghost view = { λ k. record { daemon = k.daemon; whole = k.whole; history = k.front } };

    ghost invariant = { λ k. IsLead D.Daemon.stands J.setting k.daemon k.whole k.front k.reading k.next };
}

/// What the numbers of calls and jobs stay below, so that a step has numbers for all that it makes.
const LAST_NUMBER: u64 = 0x8000_0000_0000_0000 - 2048;

/// More calls no step makes: there is no memory for them.
const MOST_CALLS: usize = 0x1000_0000;

/// More entries no history has.
const MOST_ENTRIES: u64 = 1 << 60;

/// The greatest of the readings of the last renewals, and 0 where there is none.
fn greatest_renewed(given: &[Given]) -> u64
    ensures { result ≡ greatest (map (λ g. g.renewed) given.now) }
{
    let mut reading = 0;
    for session in given {
        reading = session.renewed.max(reading);
    }
    reading
}

/// Whether there are no numbers left for a step behind so many entries, or no memory for its calls.
fn is_full(next: Numbers, most: &Most, count: u64) -> bool
    ensures { IsFalse result → HasNumbers next most.now count }
{
    next.call >= LAST_NUMBER
        || next.job >= LAST_NUMBER
        || most.calls > MOST_CALLS
        || count >= MOST_ENTRIES
}

/// The next numbers after a step.
fn advanced(next: Numbers, entry: &Entry) -> Numbers
    requires { (most : Most) × (count : ℕ) × HasNumbers next most count × (length entry.now.effects.calls ≤ most.calls) }
    ensures calls { result.call ≡ next.call + length entry.now.effects.calls }
    ensures jobs { result.job ≡ (if takes_number entry.now.input then next.job + 1 else next.job) }
{
    let job = match &entry.input {
        Input::Line(_) => next.job + 1,
        Input::Number(_) => next.job + 1,
        Input::Answer { .. } => next.job,
        Input::Wake => next.job,
        Input::Exit { .. } => next.job,
        Input::Spawned { .. } => next.job,
    };
    Numbers {
        call: next.call + entry.effects.calls.len() as u64,
        job,
    }
}

/// The call that the input answers, and 0 where it answers none.
fn call_of(input: &Input) -> u64
    ensures { (call : ℕ) → (sectors : Run) → input.now ≡ read_of call sectors → result ≡ call }
{
    match input {
        Input::Answer { call, answer: _ } => *call,
        _ => 0,
    }
}

/// The daemon's step, by the sectors of the input where they are given. An `Err` is want of memory, and changes nothing.
fn step_with<D: Daemon>(
    daemon: &mut D,
    now: u64,
    input: &Input,
    sectors: Option<&Images>,
) -> Result<Effects, AllocError>
    requires may { (st : Setting) × (es : Trace) × D.stands daemon.old st es × MayCome st es now input.now }
    requires sectors { IfSome sectors (λ i. (call : ℕ) × (input.now ≡ read_of call i.now)) }
    ensures stays { (st : Setting) → (es : Trace) → D.stands daemon.old st es → MayCome st es now input.now
        → IfOk result (λ fx. D.stands daemon.new st (entry_of now input.now fx ∷ es) × IsNumbered st es fx) }
    ensures sound { (st : Setting) → (es : Trace) → D.stands daemon.old st es → MayCome st es now input.now
        → IfOk result (IsStep st (D.makes daemon.old)) }
    ensures err { OnErr result (daemon.new ≡ daemon.old) }
{
    match sectors {
        Some(sectors) => daemon.read(now, call_of(input), sectors),
        None => daemon.step(now, input),
    }
}

/// The daemon makes a step, and then sees that the memory of one step more stands by, for what can't wait for memory when it comes. What that
/// gave goes out beside the effects: it is no answer of this step. An `Err` is want of memory for the step, and changes nothing.
fn step_ready<D: Daemon>(
    daemon: &mut D,
    now: u64,
    input: &Input,
    sectors: Option<&Images>,
) -> Result<(Effects, Result<(), AllocError>), AllocError>
    requires may { (st : Setting) × (es : Trace) × D.stands daemon.old st es × MayCome st es now input.now }
    requires sectors { IfSome sectors (λ i. (call : ℕ) × (input.now ≡ read_of call i.now)) }
    ensures stays { (st : Setting) → (es : Trace) → D.stands daemon.old st es → MayCome st es now input.now
        → IfOk result (λ r. D.stands daemon.new st (entry_of now input.now r.0 ∷ es) × IsNumbered st es r.0) }
    ensures sound { (st : Setting) → (es : Trace) → D.stands daemon.old st es → MayCome st es now input.now
        → IfOk result (λ r. IsStep st (D.makes daemon.old) r.0) }
    ensures ready { IfOk result (λ r. IsOk r.1 → D.spare daemon.new ≡ 1) }
    ensures err { OnErr result (daemon.new ≡ daemon.old) }
{
    let effects = step_with(daemon, now, input, sectors)?;
    let ready = daemon.reserve();
    Ok((effects, ready))
}

/// The daemon's step behind this front: its entry, which has a copy of the effects, and the effects. An `Err` is want of memory.
fn make<D: Teller, J: Station>(
    alloc: Global,
    daemon: &mut D,
    spare: &mut Spare,
    front: &Front<J>,
    by: u32,
    reading: u64,
    input: Input,
    sectors: Option<&Images>,
) -> Result<(Signed, Effects), AllocError>
    requires stands { D.Daemon.stands daemon.old J.setting (trace_of front.now) }
    requires may { MayCome J.setting (trace_of front.now) reading input }
    requires sectors { IfSome sectors (λ i. (call : ℕ) × (input ≡ read_of call i.now)) }
    ensures made { IfOk result (λ r. IsMade D.Daemon.stands J.setting daemon.new front.now r.0) }
    ensures entry { IfOk result (λ r. r.0 ≡ signed_of by reading input r.1) }
    ensures few { IfOk result (λ r. IsFew (D.Daemon.makes daemon.old) r.1) }
    ensures err { OnErr result (daemon.new ≡ daemon.old) }
{
    let most = daemon.most();
    let longest = daemon.longest();
    spare.reserve(&most, longest)?;
    let (effects, _ready) = step_ready(daemon, reading, &input, sectors)?;
    let copy = spare.copy(alloc, &effects);
    // so does the memory for the next copy; a refusal is no answer of this step either
    let _held = spare.reserve(&daemon.most(), daemon.longest());
    let entry = Entry {
        reading,
        input,
        effects: copy,
    };
    Ok((Signed { by, entry }, effects))
}

impl<D: Teller, J: Station> Lead<D, J> {
    /// A daemon to which nothing came yet. An `Err` is want of memory.
    #[tactic(auto, using(crate::proofs::LeadLaws::lead_new))]
    pub(crate) fn new(
        alloc: Global,
        header: &Header,
        site: Site,
        front: Front<J>,
    ) -> Result<Lead<D, J>, AllocError>
        requires header { IsHeader header.now }
        requires setting { IsSetting J.setting }
        requires site { J.setting ≡ begun_with D.Daemon.commands header.now site }
        requires front { front ≡ [] }
        ensures whole { IfOk result (λ k. k.whole ≡ true) }
        ensures history { IfOk result (λ k. k.history ≡ []) }
    {
        let reading = greatest_renewed(site.given.as_slice());
        let next = site.first;
        Ok(Lead {
            alloc,
            daemon: D::begin(alloc, header, site)?,
            front,
            whole: true,
            reading,
            next,
            spare: Spare::new(alloc),
        })
    }

    /// The front of the machine's history: all entries that there have been.
    pub(crate) fn front(&self) -> &Front<J>
        ensures { result.now ≡ self.now.history }
    {
        &self.front
    }

    /// How much the next step makes at most.
    pub(crate) fn most(&self) -> Most
        ensures { result ≡ D.Daemon.makes self.now.daemon }
    {
        self.daemon.most()
    }

    /// A number that no count of the history's calls is above.
    #[tactic(auto, using(crate::proofs::LeadLaws::calls_most))]
    pub(crate) fn calls(&self) -> u64
        ensures { (part : PartOf) → length (calls_of part (entries self.now.history)) ≤ result }
    {
        self.next.call
    }

    /// Whether the input may come to the daemon, and there are numbers for its step.
    #[tactic(auto, using(crate::proofs::LeadLaws::ready))]
    fn admit(&self, input: &Input) -> Result<(), NotApplied>
        ensures ready { OnOk result (IsReady D.Daemon.stands J.setting self.now (D.Daemon.makes self.now.daemon) input.now) }
        ensures unasked { result ≡ Err Why.Unasked → is_expected J.setting (trace_of self.now.history) input.now ≡ false }
    {
        if !self.whole {
            return Err(NotApplied::Broken);
        }
        if !self.daemon.expects(input) {
            return Err(NotApplied::Unasked);
        }
        let most = self.daemon.most();
        if is_full(self.next, &most, self.front.len()) {
            return Err(NotApplied::NoMemory);
        }
        Ok(())
    }

    /// The input comes to the daemon, at this reading or the last one if that is later, and its entry stands behind the history.
    pub(crate) fn step(
        &mut self,
        book: &Book<J>,
        by: u32,
        now: u64,
        input: Input,
        sectors: Option<&Images>,
    ) -> Result<(Signed, Effects), NotApplied>
        requires time { now < moments }
        requires sectors { IfSome sectors (λ i. (call : ℕ) × (input ≡ read_of call i.now)) }
        ensures history { IfOk result (λ r. self.new.history ≡ self.old.history ++ r.0 ∷ []) }
        ensures entry { IfOk result (λ r. IsEntry by now input r.0) }
        ensures told { IfOk result (λ r. r.0.entry.effects ≡ r.1) }
        ensures few { IfOk result (λ r. IsFew (D.Daemon.makes self.old.daemon) r.1) }
        ensures unasked { result ≡ Err Why.Unasked → (self.new ≡ self.old) × (is_expected J.setting (trace_of self.old.history) input ≡ false) }
        ensures memory { result ≡ Err Why.NoMemory → self.new ≡ self.old }
        ensures err { OnErr result (self.new.history ≡ self.old.history) }
    {
        self.admit(&input)?;
        let mut front = self.front.again();
        let reading = now.max(self.reading);
        let (signed, effects) = make(
            self.alloc,
            &mut self.daemon,
            &mut self.spare,
            &front,
            by,
            reading,
            input,
            sectors,
        )?;
        if !front.add(book, &signed) {
            self.whole = false;
            return Err(NotApplied::Broken);
        }
        self.front = front;
        self.reading = reading;
        self.next = advanced(self.next, &signed.entry);
        Ok((signed, effects))
    }

    /// The front of the history, and whether the daemon is whole: then it stands for it.
    pub(crate) fn end(self) -> (Front<J>, bool)
        ensures history { result.0 ≡ self.history }
        ensures whole { result.1 ≡ self.whole }
        ensures trace { IsTrace J.setting (trace_of result.0) }
        ensures stands { IsTrue result.1 → (d : D) × D.Daemon.stands d J.setting (trace_of result.0) }
    {
        let Lead {
            alloc: _,
            daemon: _,
            front,
            whole,
            reading: _,
            next: _,
            spare: _,
        } = self;
        (front, whole)
    }
}
