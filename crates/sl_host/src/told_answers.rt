//! An answer, told to the member that waits for it; and refused members that are over.

ghost use Rattle.sl_delta.specs.OwnSector.{answer_in};
ghost use Rattle.sl_host_state.specs.HeardInputs.{renewed_of};
ghost use Rattle.sl_host_state.specs.KeptState.{MemberState};
ghost use Rattle.sl_lease.specs.Reads.{CanRead, HasPlaces, HasRead, sectors_read};
ghost use Rattle.sl_area.specs.AreaSizes.{layout_of};
ghost use Rattle.sl_member.specs.Leases.{AreByPlace, kept_shown};
ghost use Rattle.sl_member.specs.Members.{lease_changed, own_told};
ghost use Rattle.sl_member.specs.HostMembers.{AreApart, changed_member, member_with};
ghost use Rattle.sl_sector.specs.Records.{Fits, IsLeader};
ghost use Rattle.sl_sector.specs.declared.sector.Leader.{Leader as LeaderOf};
ghost use Rattle.sl_sector.specs.declared.sector.PairBlock.{PairBlock as PairBlockOf};
ghost use Rattle.sl_trace.specs.LeaseDecisions.{first_step, part_read};
ghost use Rattle.sl_trace.specs.Sessions.{is_join_call, is_renewal};
ghost use Rattle.sl_trace.specs.declared.effects.JoinStep.TheVariants.{FirstRead};
ghost use Rattle.sl_trace.specs.declared.effects.Purpose.TheVariants.{Survey};
ghost use Rattle.sl_trace.specs.declared.input.Answer.TheVariants.{Failed};
ghost use Rattle.sl_host.specs.HeardAnswers.{IsTold, first_to, is_over_in, lease_heard, own_heard, renewals_told, request_heard, shows_at, survey_heard, tells_renewals, turn_to};
ghost use Rattle.sl_host.specs.declared.told_answers.Told.TheVariants.{Gave};
ghost use Rattle.sl_words.specs.Bounds.{moments};
ghost use Rattle.std.specs.List.{list_any};
ghost use Rattle.std.specs.Prelude.{IfSome, IsTrue, List, None, Option, Some, filter, find, is_some, length, map, not, option_map, slice_get, true, ℕ, ◌*◌, ◌<◌, ◌^◌, ◌≡◌, ◌≤◌};

use sl_delta::SectorAnswer;
use sl_host_state::OpenCall;
use sl_lease::{Blocks, Sectors};
use sl_member::{Member, Members};
use sl_sector::Leader;
use sl_tables::OpenCalls;
use sl_trace::{Begun, JoinStep, LeaseStep, Purpose, Spot};

// ---- refused members

/// Whether a refused member is over: no write of it is open.
fn is_over(member: &Member, unanswered: &OpenCalls) -> bool
    ensures { result ≡ is_over_in unanswered.now.calls member.now.state }
{
    member.is_refused() && !unanswered.has_write(member.who().number)
}

/// The number of the first member that is over.
fn over_number(members: &Members, unanswered: &OpenCalls) -> Option<u64>
    ensures { result ≡ option_map (λ s. s.who.number) (find (is_over_in unanswered.now.calls) members.now.members) }
{
    for place in 0..members.len() {
        let member = members.nth(place);
        if is_over(member, unanswered) {
            return Some(member.who().number);
        }
    }
    None
}

/// What members know of themselves: their numbers are apart, and the leases of each stand by place.
pub(crate) fn order(members: &Members, number: u64)
    ensures apart { AreApart (map (λ s. s.who.number) members.now.members) }
    ensures by_place { (m : MemberState) → member_with number members.now.members ≡ Some m → AreByPlace m.leases }
{
    let _joining = members.joining_by(0);
    match members.numbered(number) {
        Some(member) => {
            let _count = member.leases().len();
        }
        None => {}
    }
}

/// The refused members go that are over.
pub(crate) fn remove_over(members: &mut Members, unanswered: &OpenCalls)
    ensures { members.new ≡ record members.old { members = filter (λ s. not (is_over_in unanswered.now.calls s)) members.old.members } }
{
    while let Some(number) = over_number(members, unanswered) {
        order(members, number);
        members.remove(number);
    }
}

// ---- the own sector

/// Whether the call is a joining's first read.
fn is_first_read(purpose: &Purpose) -> bool
    ensures { result ≡ is_join_call FirstRead purpose.now }
{
    matches!(
        purpose,
        Purpose::Joining {
            job: _,
            step: JoinStep::FirstRead,
        }
    )
}

/// Whether the call is a renewal, the first one too.
pub(crate) fn is_renewal(purpose: &Purpose) -> bool
    ensures { result ≡ is_renewal purpose.now }
{
    matches!(
        purpose,
        Purpose::Renewal
            | Purpose::Joining {
                job: _,
                step: JoinStep::FirstRenewal,
            }
    )
}

/// Whether the call's answer may tell of renewals.
fn tells_renewals(purpose: &Purpose) -> bool
    ensures { result ≡ tells_renewals purpose.now }
{
    matches!(
        purpose,
        Purpose::Renewal | Purpose::Joining { job: _, step: _ }
    )
}

/// The submission reading of a renewal that is answered ok.
fn renewed_of(call: &OpenCall, answer: &SectorAnswer) -> Option<u64>
    ensures { result ≡ renewed_of call.now (answer_in answer.now) }
{
    match answer {
        SectorAnswer::Read(_) => None,
        SectorAnswer::Written => {
            if is_renewal(&call.purpose) {
                Some(call.reading)
            } else {
                None
            }
        }
        SectorAnswer::Failed => None,
    }
}

/// The answer tells of its member's renewals, if it does.
fn tell_renewals(members: &mut Members, call: &OpenCall, answer: &SectorAnswer, begun: Begun)
    ensures { members.new ≡ record members.old { members = changed_member call.now.session (renewals_told call.now (answer_in answer.now) begun) members.old.members } }
{
    if tells_renewals(&call.purpose) {
        let renewed = renewed_of(call, answer);
        members.renewing_told(call.session, renewed, false, begun);
    }
}

/// The answer is told to what its member keeps of its own sector.
#[tactic(auto, using(crate::proofs::AnswersTold::first_changed))]
fn tell_sector(members: &mut Members, call: &OpenCall, now: u64, answer: SectorAnswer)
    requires { now < moments }
    ensures { members.new ≡ record members.old { members = changed_member call.now.session (own_told call.now.purpose (answer_in answer) now) members.old.members } }
{
    if is_first_read(&call.purpose) {
        members.first_answered(call.session, now, answer);
    } else {
        members.own_answered(call.session, now, &call.purpose);
    }
}

/// An answer to a call on the own sector of its member.
#[tactic(auto, using(crate::proofs::AnswersTold::own_changed))]
pub(crate) fn tell_own(
    members: &mut Members,
    call: &OpenCall,
    begun: Begun,
    now: u64,
    answer: SectorAnswer,
)
    requires { now < moments }
    ensures { members.new ≡ record members.old { members = changed_member call.now.session (own_heard call.now (answer_in answer) begun now) members.old.members } }
{
    tell_renewals(members, call, &answer, begun);
    tell_sector(members, call, now, answer);
}

// ---- a read of all ids

/// Whether the sectors of all ids show another in the place of the member of this number.
fn shows_to<S: Sectors>(members: &Members, number: u64, sectors: &S) -> bool
    requires cut { IsTrue (S.is_cut sectors.now members.now.run.sizes.sector) }
    requires many { length (S.bytes sectors.now) ≡ members.now.run.sizes.hosts * members.now.run.sizes.sector }
    ensures { (m : MemberState) → member_with number members.now.members ≡ Some m → result ≡ shows_at members.now.run (S.bytes sectors.now) m }
{
    match members.numbered(number) {
        Some(member) => member.shows_other(sectors),
        None => false,
    }
}

/// Whether they show another in the place of the member at this place.
fn shows_by_place<S: Sectors>(members: &Members, place: usize, sectors: &S) -> bool
    requires place { place < length members.now.members }
    requires cut { IsTrue (S.is_cut sectors.now members.now.run.sizes.sector) }
    requires many { length (S.bytes sectors.now) ≡ members.now.run.sizes.hosts * members.now.run.sizes.sector }
    ensures { (m : MemberState) → slice_get members.now.members place ≡ Some m → result ≡ shows_at members.now.run (S.bytes sectors.now) m }
{
    let number = members.nth(place).who().number;
    order(members, number);
    shows_to(members, number, sectors)
}

/// Whether they show another in the place of any member.
pub(crate) fn shows_any<S: Sectors>(members: &Members, sectors: &S) -> bool
    requires cut { IsTrue (S.is_cut sectors.now members.now.run.sizes.sector) }
    requires many { length (S.bytes sectors.now) ≡ members.now.run.sizes.hosts * members.now.run.sizes.sector }
    ensures { result ≡ list_any (shows_at members.now.run (S.bytes sectors.now)) members.now.members }
{
    for place in 0..members.len() {
        if shows_by_place(members, place, sectors) {
            return true;
        }
    }
    false
}

/// A read of all ids, answered at the reading `now`, is told to its member.
pub(crate) fn tell_survey<S: Sectors>(
    members: &mut Members,
    call: &OpenCall,
    begun: Begun,
    now: u64,
    sectors: &S,
)
    requires moment { now < moments }
    requires cut { IsTrue (S.is_cut sectors.now members.old.run.sizes.sector) }
    requires many { length (S.bytes sectors.now) ≡ members.old.run.sizes.hosts * members.old.run.sizes.sector }
    ensures { members.new ≡ record members.old { members = changed_member call.now.session (survey_heard members.old.run call.now.reading now (S.bytes sectors.now) begun) members.old.members } }
{
    order(members, call.session);
    let shows = shows_to(members, call.session, sectors);
    members.renewing_told(call.session, None, shows, begun);
    members.own_answered(call.session, now, &Purpose::Survey);
    members.surveyed(call.session, call.reading, now, sectors);
}

/// A read of all ids that failed is told to its member.
pub(crate) fn tell_no_survey(members: &mut Members, call: &OpenCall, now: u64)
    requires { now < moments }
    ensures { members.new ≡ record members.old { members = changed_member call.now.session (own_told Survey Failed now) members.old.members } }
{
    members.own_answered(call.session, now, &Purpose::Survey);
}

// ---- a lease's read

/// What a read of a lease's work gave: it is to be made once more, or this leader, if it reads one, the blocks being in their places.
#[derive(Clone, Copy)]
pub enum Told {
    Again,
    Gave { leader: Option<Leader> },
}

/// The turn of its own pair that a read at this step shows a member, if it shows one.
fn turn_shown(members: &Members, session: u64, step: &LeaseStep, blocks: &Blocks) -> Option<u64>
    ensures exact { (bytes : List ℕ) → HasRead members.now.run.sizes (part_read (layout_of members.now.run.sizes) bytes (first_step step.now)) blocks.now
        → result ≡ turn_to (layout_of members.now.run.sizes) session step.now bytes members.now.members }
    ensures rules { IfSome result (λ t. (1 ≤ t) × Fits t) }
{
    match members.numbered(session) {
        Some(member) => {
            let _within = member.known();
            blocks.turn_at(step, member.who().id)
        }
        None => None,
    }
}

/// The read for which a member's lease on an area waits is to be made once more: what its answer gave is kept.
fn tell_first(
    members: &mut Members,
    session: u64,
    at: &Spot,
    turn: Option<u64>,
    blocks: &mut Blocks,
)
    requires standing { is_some blocks.old.kept ≡ true }
    requires turn { IfSome turn (λ t. (1 ≤ t) × Fits t) }
    ensures members { (pairs : List (Option PairBlockOf)) → blocks.old.kept ≡ Some pairs
        → members.new ≡ record members.old { members = changed_member session (lease_changed at.now (kept_shown turn pairs)) members.old.members } }
    ensures blocks { blocks.new ≡ record blocks.old { kept = None } }
{
    match blocks.take_kept() {
        Some(pairs) => members.lease_kept(session, at, turn, pairs),
        None => {}
    }
}

/// A read of a lease's work is told to its member: the turn that it shows, with what it gave, or with what is kept of it.
pub(crate) fn tell_lease_read<S: Sectors>(
    members: &mut Members,
    session: u64,
    at: &Spot,
    step: &LeaseStep,
    sectors: &S,
    blocks: &mut Blocks,
    heeded: bool,
) -> Told
    requires cut { IsTrue (S.is_cut sectors.now members.old.run.sizes.sector) }
    requires many { length (S.bytes sectors.now) ≡ sectors_read members.old.run.sizes step.now * members.old.run.sizes.sector }
    requires can { CanRead members.old.run.sizes blocks.old }
    ensures members { members.new ≡ record members.old {
      members = changed_member session
          (λ s. lease_changed at.now (lease_heard members.old.run (turn_to (layout_of members.old.run.sizes) session step.now (S.bytes sectors.now) members.old.members) heeded step.now (S.bytes sectors.now) result blocks.new.blocks s) s)
          members.old.members;
    } }
    ensures told { IsTold members.old.run.sizes (first_to session at.now step.now members.old.members) step.now (S.bytes sectors.now) result blocks.new.blocks }
    ensures rules { (leader : Option LeaderOf) → result ≡ Gave leader → IfSome leader IsLeader }
    ensures places { HasPlaces members.old.run.sizes blocks.new }
    ensures few { length blocks.new.blocks < 2 ^ 32 }
{
    let geometry = members.geometry();
    let _hosts = geometry.hosts();
    let again = blocks.read(&geometry, step, sectors);
    let turn = turn_shown(members, session, step, blocks);
    if again {
        tell_first(members, session, at, turn, blocks);
        return Told::Again;
    }
    let first = members.first_for(session, at, step);
    let leader = blocks.gather(&geometry, step, sectors, first);
    members.lease_read(session, at, turn, &leader, blocks.as_slice(), heeded);
    Told::Gave { leader }
}

// ---- a request

/// A request to this owner, if it is to one, is written: its member has asked him.
pub(crate) fn tell_request(members: &mut Members, call: &OpenCall, now: u64, owner: Option<u32>)
    ensures { members.new ≡ record members.old { members = changed_member call.now.session (request_heard owner now) members.old.members } }
{
    match owner {
        Some(owner) => {
            if owner >= 1 {
                members.asked_answered(call.session, now, owner);
            }
        }
        None => {}
    }
}
