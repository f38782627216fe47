//! A new host, before any step: its members are the sessions that it is given.
//!
//! Each is put among the members by its lockspace's name, in the order in which they are given, with its place as its number. There is memory for
//! all of them, and for as many members as may be joined; none is left to a step, which takes its own.

ghost use Rattle.sl_host_state.specs.KeptState.{state_of};
ghost use Rattle.sl_host_state.specs.MadeEffects.{with_member};
ghost use Rattle.sl_host_state.specs.NewHost.{new_host};
ghost use Rattle.sl_member.specs.Members.{blank_member};
ghost use Rattle.sl_member.specs.HostMembers.{member_with};
ghost use Rattle.sl_trace.specs.Sessions.{given_session};
ghost use Rattle.sl_text.specs.Names.{is_name};
ghost use Rattle.sl_trace.specs.CountLimits.{most_lockspaces};
ghost use Rattle.sl_host.specs.NewHosts.{MayBeGiven, books_begun, kept_begun, members_given, setting_begun};
ghost use Rattle.sl_host.specs.Host.{ReadAs};
ghost use Rattle.sl_host.specs.MemberRun.{run_in};
ghost use Rattle.sl_words.specs.Words.{greatest};
ghost use Rattle.std.specs.List.{AllByRecursion};
ghost use Rattle.std.specs.Prelude.{IfOk, IsTrue, List, None, OnOk, Some, [], length, map, max, slice_get, ℕ, ◌<◌, ◌≡◌, ◌≤◌};

use crate::books::{Books, Config};
use crate::buffers::Buffers;
use crate::host::Host;
use sl_member::{Member, Members};
use sl_tables::{Children, Connections, Holdings, Jobs, OpenCalls, Programs};
use sl_trace::{Given, Numbers, Session};
use std::alloc::{AllocError, Global};

/// Lockspaces of a machine.
const MOST_LOCKSPACES: usize = 8;

/// The session at this place.
fn given_at(given: &[Given], place: usize) -> &Given
    requires { place < length given.now }
    ensures { slice_get given.now place ≡ Some result.now }
{
    &given[place]
}

/// The reading of the last renewal of these sessions, and 0.
#[tactic(auto, using(crate::proofs::BeginningStand::last_more, crate::proofs::BeginningStand::last_all))]
fn last_renewal(given: &[Given]) -> u64
    ensures { result ≡ greatest (map (λ g. g.renewed) given.now) }
{
    let mut last = 0;
    for place in 0..given.len() {
        last = given_at(given, place).renewed.max(last);
    }
    last
}

/// Their connections stand, in their order.
#[tactic(auto, using(crate::proofs::BeginningStand::names_more, crate::proofs::BeginningStand::names_all))]
fn connect(alloc: Global, given: &[Given]) -> Result<Connections, AllocError>
    ensures { IfOk result (λ c. c.names ≡ map (λ g. g.lockspace) given.now) }
{
    let mut connected = Connections::new(alloc);
    connected.reserve(given.len())?;
    for place in 0..given.len() {
        connected.put(given_at(given, place).lockspace);
    }
    Ok(connected)
}

/// The session that is given at this place among all.
fn given_session(number: u64, given: &Given) -> Session
    ensures { result ≡ given_session (number, given.now) }
{
    Session {
        number,
        job: None,
        lockspace: given.lockspace,
        id: given.id,
        path: given.path,
        offset: given.offset,
        renewed: given.renewed,
    }
}

/// It is a member from here on.
fn seat(
    alloc: Global,
    config: &Config,
    number: u64,
    given: &Given,
    members: &mut Members,
) -> Result<(), AllocError>
    requires named { IsTrue (is_name config.now.name) }
    requires given { MayBeGiven config.now.sizes given.now }
    requires run { members.old.run ≡ run_in config.now }
    requires place { length members.old.members < members.old.most }
    requires new { member_with number members.old.members ≡ None }
    ensures members { OnOk result (members.new.members ≡ with_member (blank_member (run_in config.now) (given_session (number, given.now))) members.old.members) }
    ensures same { OnOk result ((members.new.run ≡ members.old.run) × (members.new.most ≡ members.old.most)) }
{
    let who = given_session(number, given);
    let member = Member::new(alloc, &config.timing, &config.geometry, config.name, who)?;
    members.put(member);
    Ok(())
}

/// All of them are.
#[tactic(auto, using(crate::proofs::BeginningStand::said_at, crate::proofs::BeginningStand::seated_more, crate::proofs::BeginningStand::seated_all, crate::proofs::BeginningStand::seated_few, crate::proofs::BeginningStand::seated_none))]
fn seat_all(
    alloc: Global,
    config: &Config,
    given: &[Given],
    members: &mut Members,
) -> Result<(), AllocError>
    requires named { IsTrue (is_name config.now.name) }
    requires given { AllByRecursion (MayBeGiven config.now.sizes) given.now }
    requires run { members.old.run ≡ run_in config.now }
    requires none { members.old.members ≡ [] }
    requires places { length given.now ≤ members.old.most }
    ensures members { OnOk result (members.new.members ≡ members_given (run_in config.now) given.now) }
    ensures same { OnOk result ((members.new.run ≡ members.old.run) × (members.new.most ≡ members.old.most)) }
{
    for place in 0..given.len() {
        seat(alloc, config, place as u64, given_at(given, place), members)?;
    }
    Ok(())
}

/// The members that a host begins with.
fn begin_members(alloc: Global, config: &Config, given: &[Given]) -> Result<Members, AllocError>
    requires named { IsTrue (is_name config.now.name) }
    requires given { AllByRecursion (MayBeGiven config.now.sizes) given.now }
    ensures members { IfOk result (λ m. m.members ≡ members_given (run_in config.now) given.now) }
    ensures run { IfOk result (λ m. (m.run ≡ run_in config.now) × (m.most ≡ max most_lockspaces (length given.now))) }
{
    let mut members = Members::new(alloc, &config.timing, &config.geometry, config.name);
    members.reserve(MOST_LOCKSPACES.max(given.len()), 0)?;
    seat_all(alloc, config, given, &mut members)?;
    Ok(members)
}

/// The books that it begins with.
fn begin_books(
    alloc: Global,
    config: Config,
    first: Numbers,
    given: &[Given],
) -> Result<Books, AllocError>
    ensures { IfOk result (λ b. b ≡ books_begun config first given.now) }
{
    let last = last_renewal(given);
    let area = config.geometry.area();
    let connected = connect(alloc, given)?;
    Ok(Books {
        config,
        reading: last,
        before: last,
        entries: 0,
        quiet_until: 0,
        first_call: first.call,
        next_job: first.job,
        started: 0,
        granted: 0,
        born: given.len() as u64,
        connected,
        unanswered: OpenCalls::new(alloc, area),
        jobs: Jobs::new(alloc),
        holdings: Holdings::new(alloc),
        children: Children::new(alloc),
        programs: Programs::new(alloc),
        made: Buffers::none(alloc),
    })
}

impl Host {
    /// A host that is made of this, with the numbers of its first call and job and the sessions that are joined as it begins: before any step, and
    /// with nothing left to be made. An `Err` is want of memory.
    pub fn new(
        alloc: Global,
        config: Config,
        first: Numbers,
        given: &[Given],
    ) -> Result<Host, AllocError>
        requires named { IsTrue (is_name config.name) }
        requires given { AllByRecursion (MayBeGiven config.sizes) given.now }
        ensures kept { IfOk result (λ h. h.kept ≡ kept_begun config first given.now) }
        ensures state { IfOk result (λ h. (read : List ℕ → ReadAs) → state_of read h.kept ≡ new_host (setting_begun config first given.now read)) }
        ensures left { IfOk result (λ h. (h.left ≡ 0) × (h.calls ≡ 0) × (h.most ≡ 0) × (h.most_calls ≡ 0)) }
        ensures seats { IfOk result (λ h. h.seats ≡ max most_lockspaces (length given.now)) }
    {
        let members = begin_members(alloc, &config, given)?;
        let books = begin_books(alloc, config, first, given)?;
        Ok(Host { members, books })
    }
}
