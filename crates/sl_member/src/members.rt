//! The members of a host together, by lockspace name.
//!
//! Each is of the host's run, no two have one number, and each has memory for so many more leases (`room`); there is memory for so many
//! members in all (`most`). Only `reserve` asks for memory.

ghost use Rattle.sl_area.specs.AreaSizes.{layout_of};
ghost use Rattle.sl_delta.specs.OwnSector.{answer_in};
ghost use Rattle.sl_host_state.specs.HeardInputs.{asked_at};
ghost use Rattle.sl_host_state.specs.KeptState.{MemberState};
ghost use Rattle.sl_host_state.specs.MadeEffects.{with_member};
ghost use Rattle.sl_lease.specs.Changes.{after_failure, after_write};
ghost use Rattle.sl_member.specs.Leases.{first_among, kept_shown, read_shown};
ghost use Rattle.sl_sector.specs.Records.{Fits};
ghost use Rattle.sl_member.specs.Members.{IsOwnCall, leaving_begun, lease_changed, member_called, own_told, recovery_begun, renewal_counted, renewing_told};
ghost use Rattle.sl_member.specs.HostMembers.{AreApart, AreRoomier, begins_among, begins_leaving, begun_by, begun_kept, changed_member, is_joining_by, late_by, left_by, left_kept, member_with, side_with, told_survey};
ghost use Rattle.sl_trace.specs.Sessions.{is_join_call, is_session_arg};
ghost use Rattle.sl_trace.specs.Traces.{new_call};
ghost use Rattle.sl_trace.specs.declared.effects.JoinStep.TheVariants.{FirstRead};
ghost use Rattle.sl_trace.specs.declared.effects.Purpose.TheVariants.{Joining};
ghost use Rattle.sl_trace.specs.declared.input.Answer.{Answer};
ghost use Rattle.sl_words.specs.Bounds.{moments};
ghost use Rattle.sl_words.specs.Words.{some_is};
ghost use Rattle.std.specs.List.{AllWithin, list_any};
ghost use Rattle.std.specs.Prelude.{IfSome, IsTrue, None, OnErr, OnOk, Some, bytes_eq, cond, false, filter, find, length, map, max, min, not, option_and_then, option_map, slice_get, true, vec_capacity, vec_len, [], ℕ, ◌&&◌, ◌*◌, ◌-◌, ◌<◌, ◌==◌, ◌^◌, ◌≡◌, ◌≤◌};

use crate::lookups::{
    find_for, find_joining, find_named, gap_of, has_number, is_joined_as, place_of,
};
use crate::member::Member;
use sl_area::Geometry;
use sl_delta::SectorAnswer;
use sl_lease::{Pairs, Sectors};
use sl_sector::{Block, HostId, Leader};
use sl_text::Name;
use sl_time::Timing;
use sl_trace::{Begun, Call, LeaseStep, LockspaceArg, Purpose, Session, Spot};
use std::alloc::{AllocError, Global};
use std::marker::Model;

/// The members of a host: the sessions whose lockspaces are in use, by the lockspaces' names, with room for some more.
#[derive(Drop)]
pub struct Members {
    timing: Timing,
    geometry: Geometry,
    host: Name,
    items: Vec<Member>,
    most: usize,
    room: usize,
}

impl Model for Members {
    ghost use Rattle.sl_member.specs.HostMembers.{AreMembers, MembersState};
    ghost use Rattle.std.specs.Prelude.{map, vec_capacity, vec_len, ◌≤◌};

    ghost Value = { MembersState };

    ghost view = { λ m. record {
      run = record { timing = m.timing; sizes = m.geometry; host = m.host };
      members = map (λ k. k.state) m.items.items;
      most = m.most;
      room = m.room;
    } };

    ghost invariant = { λ m. AreMembers (record { timing = m.timing; sizes = m.geometry; host = m.host }) m.room m.items.items × (vec_len m.items ≤ m.most)
        × (m.most ≤ vec_capacity m.items) };
}

/// The room that is left once a lease has begun, or not.
fn left(room: usize, begins: bool) -> usize
    requires { begins ≡ true → 0 < room }
    ensures { result ≡ cond begins (room - 1) room }
{
    if begins { room - 1 } else { room }
}

/// Sees that each has memory for so many more leases.
fn reserve_rooms(items: &mut [Member], room: usize) -> Result<(), AllocError>
    ensures kept { AreRoomier items.old items.new }
    ensures ok { OnOk result (AllWithin (λ m. room ≤ m.room) items.new 0 (length items.new)) }
{
    for member in items.iter_mut() {
        member.reserve(room)?;
    }
    Ok(())
}

/// The same where there is memory for fewer.
#[tactic(auto, using(crate::proofs::MembersTogether::roomier_itself))]
fn reserve_more(items: &mut [Member], has: usize, room: usize) -> Result<(), AllocError>
    ensures kept { AreRoomier items.old items.new }
    ensures ok { OnOk result (has < room → AllWithin (λ m. room ≤ m.room) items.new 0 (length items.new)) }
{
    if has < room {
        reserve_rooms(items, room)
    } else {
        Ok(())
    }
}

/// Sees that there is memory for so many in all.
fn reserve_places(items: &mut Vec<Member>, most: usize) -> Result<(), AllocError>
    ensures items { (items.new.items ≡ items.old.items) × (vec_len items.new ≡ vec_len items.old) }
    ensures capacity { vec_capacity items.old ≤ vec_capacity items.new }
    ensures ok { OnOk result (most ≤ vec_capacity items.new) }
{
    items.reserve(most.saturating_sub(items.len()))
}

/// Whether the recovery of one begins by time.
fn is_any_late(items: &[Member], now: u64) -> bool
    ensures { result ≡ list_any (λ m. late_by m.run.timing now m.state) items.now }
{
    items.iter().any(|member| member.is_late(now))
}

/// Begins the recovery of a member if it is late.
fn begin(member: &mut Member, now: u64, at: u64)
    ensures { member.new ≡ begun_kept now at member.old }
{
    if member.is_late(now) {
        member.recovers(Begun {
            at,
            reading: now,
            kills_from: at,
        });
    }
}

/// The same for all of these.
fn begin_all(items: &mut [Member], now: u64, at: u64)
    ensures { items.new ≡ map (begun_kept now at) items.old }
{
    for member in items.iter_mut() {
        begin(member, now, at);
    }
}

/// Whether the words name this session's lockspace, id and area.
pub fn is_session_arg(session: &Session, lockspace: &LockspaceArg) -> bool
    ensures { result ≡ is_session_arg session.now lockspace.now }
{
    lockspace.name.as_slice() == session.lockspace.as_slice()
        && lockspace.id == session.id
        && (lockspace.offset == session.offset
            && lockspace.path.as_slice() == session.path.as_slice())
}

/// Whether a member is joined and named by these words.
fn is_left_by(member: &Member, lockspace: &LockspaceArg) -> bool
    ensures { result ≡ (member.now.state.joined && is_session_arg member.now.state.who lockspace.now) }
{
    member.is_joined() && is_session_arg(member.who(), lockspace)
}

/// Whether a member leaves by these words, and is not leaving yet.
fn begins_leaving(member: &Member, lockspace: &LockspaceArg) -> bool
    ensures { result ≡ begins_leaving lockspace.now member.now.state }
{
    is_left_by(member, lockspace) && member.leaving().is_none()
}

/// Begins the leaving of a member that these words name, for this job.
fn leave(member: &mut Member, lockspace: &LockspaceArg, begun: Begun, job: u64)
    ensures { member.new ≡ left_kept lockspace.now begun job member.old }
{
    if begins_leaving(member, lockspace) {
        member.leaves(begun, job);
    }
}

/// The same for all of these.
fn leave_all(items: &mut [Member], lockspace: &LockspaceArg, begun: Begun, job: u64)
    ensures { items.new ≡ map (left_kept lockspace.now begun job) items.old }
{
    for member in items.iter_mut() {
        leave(member, lockspace, begun, job);
    }
}

/// Whether one is joined and named by these words.
fn is_any_left(items: &[Member], lockspace: &LockspaceArg) -> bool
    ensures { result ≡ list_any (λ m. m.state.joined && is_session_arg m.state.who lockspace.now) items.now }
{
    items.iter().any(|member| is_left_by(member, lockspace))
}

impl Members {
    /// No member, and no room for one, of a run with these times and sizes. It takes no memory.
    pub fn new(alloc: Global, timing: &Timing, geometry: &Geometry, host: Name) -> Members
        ensures { result ≡ record { run = record { timing = timing.now; sizes = geometry.now; host = host }; members = []; most = 0; room = 0 } }
    {
        Members {
            timing: *timing,
            geometry: *geometry,
            host,
            items: Vec::new(alloc),
            most: 0,
            room: 0,
        }
    }

    /// The sizes of sectors and areas, in bytes, of the whole run.
    pub fn geometry(&self) -> Geometry
        ensures { result ≡ self.now.run.sizes }
    {
        self.geometry
    }

    /// Sees that there is memory for so many members in all, and for so many more leases at each. An `Err` is want of memory, and changes
    /// nothing.
    pub fn reserve(&mut self, most: usize, room: usize) -> Result<(), AllocError>
        ensures ok { OnOk result (self.new ≡ record self.old { most = max self.old.most most; room = max self.old.room room }) }
        ensures err { OnErr result (self.new ≡ self.old) }
    {
        reserve_places(&mut self.items, most)?;
        reserve_more(&mut self.items, self.room, room)?;
        self.most = self.most.max(most);
        self.room = self.room.max(room);
        Ok(())
    }

    /// For how many members there is memory in all: there are no more than that.
    pub fn most(&self) -> usize
        ensures exact { result ≡ self.now.most }
        ensures few { length self.now.members ≤ result }
    {
        self.most
    }

    /// Whether the recovery of one begins by time.
    pub fn is_late(&self, now: u64) -> bool
        ensures { result ≡ list_any (late_by self.now.run.timing now) self.now.members }
    {
        is_any_late(&self.items, now)
    }

    /// The step that is this one of all, counted from 0, begins at the reading `now`: recoveries begin that are due by time.
    pub fn begins(&mut self, now: u64, at: u64)
        ensures { self.new ≡ record self.old { members = map (begun_by self.old.run.timing now at) self.old.members } }
    {
        begin_all(&mut self.items, now, at);
    }

    /// Whether one is joined and named by these words.
    pub fn is_left(&self, lockspace: &LockspaceArg) -> bool
        ensures { result ≡ list_any (λ s. s.joined && is_session_arg s.who lockspace.now) self.now.members }
    {
        is_any_left(&self.items, lockspace)
    }

    /// A line of these words leaves, for this job: the leaving begins of each that is joined, named by them and not leaving yet.
    pub fn leave(&mut self, lockspace: &LockspaceArg, begun: Begun, job: u64)
        ensures { self.new ≡ record self.old { members = map (left_by lockspace.now begun job) self.old.members } }
    {
        leave_all(&mut self.items, lockspace, begun, job);
    }

    /// How many there are.
    pub fn len(&self) -> usize
        ensures { result ≡ length self.now.members }
    {
        self.items.len()
    }

    /// The member at this place, in the order of lockspaces' names.
    pub fn nth(&self, place: usize) -> &Member
        requires { place < length self.now.members }
        ensures { slice_get self.now.members place ≡ Some result.now.state }
    {
        &self.items[place]
    }

    /// The member of this number, if there is one.
    pub fn numbered(&self, number: u64) -> Option<&Member>
        ensures exact { option_map (λ m. m.now.state) result ≡ member_with number self.now.members }
        ensures run { IfSome result (λ m. m.now.run ≡ self.now.run) }
    {
        match place_of(&self.items, number) {
            Some(place) => Some(&self.items[place]),
            None => None,
        }
    }

    /// The member of this lockspace, if there is one.
    pub fn named(&self, lockspace: &Name) -> Option<&Member>
        ensures exact { option_map (λ m. m.now.state) result ≡ find (λ s. bytes_eq s.who.lockspace lockspace.now) self.now.members }
        ensures run { IfSome result (λ m. m.now.run ≡ self.now.run) }
    {
        find_named(&self.items, lockspace)
    }

    /// The member whose joining is this job, if there is one.
    pub fn joining(&self, job: u64) -> Option<&Member>
        ensures { option_map (λ m. m.now.state) result ≡ find (λ s. some_is (λ j. j == job) s.who.job) self.now.members }
    {
        find_for(&self.items, job)
    }

    /// The first member that is joining by this job, if there is one. All numbers are apart.
    pub fn joining_by(&self, job: u64) -> Option<&Member>
        ensures exact { option_map (λ m. m.now.state) result ≡ find (is_joining_by job) self.now.members }
        ensures apart { AreApart (map (λ s. s.who.number) self.now.members) }
    {
        find_joining(&self.items, job)
    }

    /// One more member, with a number of its own, by lockspace name. From here on each has memory for as many more leases as it has, if that
    /// is less than before.
    pub fn put(&mut self, member: Member)
        requires place { length self.old.members < self.old.most }
        requires run { member.run ≡ self.old.run }
        requires new { member_with member.state.who.number self.old.members ≡ None }
        ensures { self.new ≡ record self.old { members = with_member member.state self.old.members; room = min self.old.room member.room } }
    {
        let place = gap_of(&self.items, &member.who().lockspace);
        self.room = self.room.min(member.room());
        match self.items.insert(place, member) {
            Ok(()) => {}
            Err(_) => unreachable!(),
        }
    }

    /// The member of this number, if there is one, is a member no more.
    pub fn remove(&mut self, number: u64)
        ensures { self.new ≡ record self.old { members = filter (λ s. not (number == s.who.number)) self.old.members } }
    {
        self.items.retain(|member| !has_number(member, number));
    }

    /// The joined members of this lockspace go.
    pub fn remove_joined(&mut self, lockspace: &Name)
        ensures { self.new ≡ record self.old { members = filter (λ s. not (s.joined && bytes_eq s.who.lockspace lockspace.now)) self.old.members } }
    {
        self.items.retain(|member| !is_joined_as(member, lockspace));
    }

    /// A call of the member of this session is submitted at the reading `now`. The first call of a lease takes a place.
    pub fn calling(&mut self, now: u64, call: &Call)
        requires moment { now < moments }
        requires own { IsOwnCall (new_call 0 now call.now) }
        requires room { begins_among self.old.run (new_call 0 now call.now) self.old.members ≡ true → 0 < self.old.room }
        ensures { (at : ℕ) → self.new ≡ record self.old {
          members = changed_member call.now.session (member_called (layout_of self.old.run.sizes) (new_call at now call.now)) self.old.members;
          room = cond (begins_among self.old.run (new_call 0 now call.now) self.old.members) (self.old.room - 1) self.old.room;
        } }
    {
        match place_of(&self.items, call.session) {
            Some(place) => {
                let begins = self.items[place].begins_lease(call);
                self.items[place].calling(now, call);
                self.room = left(self.room, begins);
            }
            None => {}
        }
    }

    /// The first read of the joining of this number's member was answered so.
    pub fn first_answered(&mut self, number: u64, now: u64, answer: SectorAnswer)
        requires { now < moments }
        ensures { (j : ℕ) → self.new ≡ record self.old { members = changed_member number (own_told (Joining j FirstRead) (answer_in answer) now) self.old.members } }
    {
        match place_of(&self.items, number) {
            Some(place) => self.items[place].first_answered(now, answer),
            None => {}
        }
    }

    /// A call of the member of this number was answered at this reading, by whatever answer: so much of it the member keeps.
    pub fn own_answered(&mut self, number: u64, now: u64, purpose: &Purpose)
        requires moment { now < moments }
        requires later { is_join_call FirstRead purpose.now ≡ false }
        ensures { (a : Answer) → self.new ≡ record self.old { members = changed_member number (own_told purpose.now a now) self.old.members } }
    {
        match place_of(&self.items, number) {
            Some(place) => self.items[place].own_answered(now, purpose),
            None => {}
        }
    }

    /// Its read of all ids, submitted at the reading `before` and answered at `after`, gave these sectors.
    pub fn surveyed<S: Sectors>(&mut self, number: u64, before: u64, after: u64, sectors: &S)
        requires cut { IsTrue (S.is_cut sectors.now self.old.run.sizes.sector) }
        requires many { length (S.bytes sectors.now) ≡ self.old.run.sizes.hosts * self.old.run.sizes.sector }
        ensures { self.new ≡ record self.old { members = changed_member number (told_survey self.old.run before after (S.bytes sectors.now)) self.old.members } }
    {
        match place_of(&self.items, number) {
            Some(place) => self.items[place].surveyed(before, after, sectors),
            None => {}
        }
    }

    /// A request to the host of an id was answered ok.
    pub fn asked_answered(&mut self, number: u64, now: u64, owner: HostId)
        requires { 1 ≤ owner }
        ensures { self.new ≡ record self.old { members = changed_member number (λ s. record s { asked = asked_at now owner s.asked }) self.old.members } }
    {
        match place_of(&self.items, number) {
            Some(place) => self.items[place].asked_answered(now, owner),
            None => {}
        }
    }

    /// A renewal of it that was submitted at this reading counts.
    pub fn renewed(&mut self, number: u64, reading: u64)
        ensures { self.new ≡ record self.old { members = changed_member number (renewal_counted reading) self.old.members } }
    {
        match place_of(&self.items, number) {
            Some(place) => self.items[place].renewed(reading),
            None => {}
        }
    }

    /// An answer tells of its renewals: whether it shows another in its place, which begins recovery so, and else which renewal counts. In
    /// recovery nothing counts.
    pub fn renewing_told(&mut self, number: u64, counts: Option<u64>, shows: bool, begun: Begun)
        ensures { self.new ≡ record self.old { members = changed_member number (renewing_told counts shows begun) self.old.members } }
    {
        match place_of(&self.items, number) {
            Some(place) => self.items[place].renewing_told(counts, shows, begun),
            None => {}
        }
    }

    /// The recovery of the member of this number begins.
    pub fn recovers(&mut self, number: u64, begun: Begun)
        ensures { self.new ≡ record self.old { members = changed_member number (recovery_begun begun) self.old.members } }
    {
        match place_of(&self.items, number) {
            Some(place) => self.items[place].recovers(begun),
            None => {}
        }
    }

    /// The leaving of the member of this number begins, for this job.
    pub fn leaves(&mut self, number: u64, begun: Begun, job: u64)
        ensures { self.new ≡ record self.old { members = changed_member number (leaving_begun begun job) self.old.members } }
    {
        match place_of(&self.items, number) {
            Some(place) => self.items[place].leaves(begun, job),
            None => {}
        }
    }

    /// Its joining is done: it has written its claim.
    pub fn joins(&mut self, number: u64)
        requires { (s : MemberState) → member_with number self.old.members ≡ Some s → 1 ≤ s.known.generation }
        ensures { self.new ≡ record self.old { members = changed_member number (λ s. record s { joined = true }) self.old.members } }
    {
        match place_of(&self.items, number) {
            Some(place) => self.items[place].joins(),
            None => {}
        }
    }

    /// The joining of the member of this number is refused.
    pub fn refuses(&mut self, number: u64)
        ensures { self.new ≡ record self.old { members = changed_member number (λ s. record s { refused = true }) self.old.members } }
    {
        match place_of(&self.items, number) {
            Some(place) => self.items[place].refuses(),
            None => {}
        }
    }

    /// What is kept of the first read for its lease on an area, where a read at this step is the second one.
    pub fn first_for(&self, number: u64, at: &Spot, step: &LeaseStep) -> Option<&Pairs>
        ensures { option_map (λ p. p.now) result ≡ option_and_then (λ s. first_among at.now step.now s.leases) (member_with number self.now.members) }
    {
        match place_of(&self.items, number) {
            Some(place) => self.items[place].first_for(at, step),
            None => None,
        }
    }

    /// The read for which its lease on an area waits showed this turn, is to be made once more, and this is kept of it.
    pub fn lease_kept(&mut self, number: u64, at: &Spot, turn: Option<u64>, pairs: Pairs)
        requires { IfSome turn (λ t. (1 ≤ t) × Fits t) }
        ensures { self.new ≡ record self.old { members = changed_member number (lease_changed at.now (kept_shown turn pairs)) self.old.members } }
    {
        match place_of(&self.items, number) {
            Some(place) => self.items[place].lease_kept(at, turn, pairs),
            None => {}
        }
    }

    /// The read for which its lease on an area waits showed this turn and gave these; it is heeded while its work goes on.
    pub fn lease_read(
        &mut self,
        number: u64,
        at: &Spot,
        turn: Option<u64>,
        leader: &Option<Leader>,
        blocks: &[Option<Block>],
        heeded: bool,
    )
        requires turn { IfSome turn (λ t. (1 ≤ t) × Fits t) }
        requires few { length blocks.now < 2 ^ 32 }
        ensures { self.new ≡ record self.old { members = changed_member number (λ s. lease_changed at.now (read_shown (side_with self.old.run s) turn heeded leader.now blocks.now) s) self.old.members } }
    {
        match place_of(&self.items, number) {
            Some(place) => self.items[place].lease_read(at, turn, leader, blocks, heeded),
            None => {}
        }
    }

    /// The write for which its lease on an area waits is done.
    pub fn lease_written(&mut self, number: u64, at: &Spot)
        ensures { self.new ≡ record self.old { members = changed_member number (lease_changed at.now after_write) self.old.members } }
    {
        match place_of(&self.items, number) {
            Some(place) => self.items[place].lease_written(at),
            None => {}
        }
    }

    /// The call for which its lease on an area waits has failed.
    pub fn lease_failed(&mut self, number: u64, at: &Spot)
        ensures { self.new ≡ record self.old { members = changed_member number (lease_changed at.now after_failure) self.old.members } }
    {
        match place_of(&self.items, number) {
            Some(place) => self.items[place].lease_failed(at),
            None => {}
        }
    }
}
