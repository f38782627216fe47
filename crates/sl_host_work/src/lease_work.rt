//! What work on a lease comes to is done: at most one call, one reply, one grant, or the conversion of a holding with the call that it then
//! owes.

ghost use Rattle.sl_area.specs.AreaSizes.{layout_of};
ghost use Rattle.sl_area.specs.AreaLayout.{block_offset, block_place};
ghost use Rattle.sl_area.specs.AreaRecords.{block_record, leader_record};
ghost use Rattle.sl_host_law.specs.Answers.LeaseDecisions.{block_at, carrying_lease, read_from, reading, record_at, sectors_read, writing_block, writing_leader};
ghost use Rattle.sl_host_law.specs.Steps.Passes.{member_numbered};
ghost use Rattle.sl_host_work.specs.LeaseQuestions.{IsTurned};
ghost use Rattle.sl_host_state.specs.KeptState.{MemberState};
ghost use Rattle.sl_host_state.specs.MadeEffects.{with_call};
ghost use Rattle.sl_host_work.specs.LeaseWork.{IsLeaseRecord, converted_under};
ghost use Rattle.sl_host_work.specs.NextDecisions.{IsFit, writes_own_block};
ghost use Rattle.sl_host_work.specs.SectorPlaces.{IsArea, IsPlaced};
ghost use Rattle.sl_lease.specs.Bounds.{IsBegun};
ghost use Rattle.sl_sector.specs.Records.{Fits};
ghost use Rattle.sl_sector.specs.declared.sector.Rec.TheVariants.{PairIs};
ghost use Rattle.sl_trace.specs.declared.effects.LeaseStep.TheVariants.{ClearMode, FreeLeader};
ghost use Rattle.sl_trace.specs.declared.effects.Mode.TheVariants.{Exclusive, Shared};
ghost use Rattle.sl_trace.specs.declared.effects.Op.TheVariants.{WriteRecord};
ghost use Rattle.sl_trace.specs.declared.effects.Purpose.TheVariants.{Lease as LeaseWork};
ghost use Rattle.sl_trace.specs.declared.effects.Work.TheVariants.{Settling};
ghost use Rattle.sl_host.specs.BookQuestions.{state_in};
ghost use Rattle.sl_host.specs.Host.{Becomes, SameRun, Spends};
ghost use Rattle.sl_words.specs.Bounds.{moments};
ghost use Rattle.std.specs.Prelude.{IfSome, IsTrue, Some, is_some, true, unwrap_or, [], ◌<◌, ◌≡◌, ◌≤◌};

use crate::grants::{answer_job, converted, grant_job};
use sl_host::Host;
use sl_lease::{reads_area, sectors_read};
use sl_sector::{Block, Leader, PairBlock, Rec};
use sl_text::Name;
use sl_trace::{LeaseNext, LeaseStep, Mode, Op, Purpose, Session, Spot, Work};

/// The own block that a session's lease writes: where, and its record.
#[derive(Clone, Copy)]
struct OwnBlock {
    offset: u64,
    spelled: Rec,
}

/// Where the own block of this turn stands, in the resource's area at this base.
fn block_place(host: &Host, who: &Session, at: &Spot, turn: u64) -> u64
    requires placed { IsPlaced host.now.kept.config.sizes who.now }
    requires area { IsArea host.now.kept.config.sizes at.now.base }
    ensures { result ≡ block_place (layout_of host.now.kept.config.sizes) at.now.base who.now.id turn }
{
    let config = host.config();
    config.geometry.turn_place(at.base, who.id, turn).offset()
}

/// Whether blocks are of pairs.
fn is_paired(host: &Host) -> bool
    ensures { result ≡ host.now.kept.config.sizes.paired }
{
    let config = host.config();
    config.geometry.is_paired()
}

/// A block of a pair: it has its turn and the names of its resource, of which the lease has verified one.
fn pair_record(who: &Session, turn: u64, name: Option<Name>, block: Block) -> Rec
    requires named { IsTrue (is_some name) }
    requires begun { IsBegun block }
    requires turn { (1 ≤ turn) × Fits turn }
    ensures exact { result ≡ PairIs (record { block = block; turn = turn; lockspace = who.now.lockspace; resource = unwrap_or name [] }) }
    ensures rules { IsLeaseRecord result }
{
    match name {
        Some(resource) => Rec::PairIs(PairBlock {
            block,
            turn,
            lockspace: who.lockspace,
            resource,
        }),
        None => unreachable!(),
    }
}

/// The record of a session's block.
fn block_record(host: &Host, who: &Session, turn: u64, name: Option<Name>, block: Block) -> Rec
    requires named { host.now.kept.config.sizes.paired ≡ true → IsTrue (is_some name) }
    requires begun { IsBegun block }
    requires turn { (1 ≤ turn) × (host.now.kept.config.sizes.paired ≡ true → Fits turn) }
    ensures exact { result ≡ block_record (layout_of host.now.kept.config.sizes) turn who.now.lockspace (unwrap_or name []) block }
    ensures rules { IsLeaseRecord result }
{
    if is_paired(host) {
        pair_record(who, turn, name, block)
    } else {
        Rec::BlockIs(block)
    }
}

/// This own block of a session, with this turn and, where there is one, the name of its resource.
fn block_of(
    host: &Host,
    who: &Session,
    at: &Spot,
    turn: u64,
    name: Option<Name>,
    block: Block,
) -> OwnBlock
    requires placed { IsPlaced host.now.kept.config.sizes who.now }
    requires area { IsArea host.now.kept.config.sizes at.now.base }
    requires named { host.now.kept.config.sizes.paired ≡ true → IsTrue (is_some name) }
    requires begun { IsBegun block }
    requires turn { (1 ≤ turn) × (host.now.kept.config.sizes.paired ≡ true → Fits turn) }
    ensures exact { result ≡ record {
      offset = block_place (layout_of host.now.kept.config.sizes) at.now.base who.now.id turn;
      spelled = block_record (layout_of host.now.kept.config.sizes) turn who.now.lockspace (unwrap_or name []) block;
    } }
    ensures rules { IsLeaseRecord result.spelled }
{
    OwnBlock {
        offset: block_place(host, who, at, turn),
        spelled: block_record(host, who, turn, name, block),
    }
}

/// The same with the turn that comes next, if the session is there.
fn own_block(host: &Host, who: &Session, at: &Spot, block: Block) -> Option<OwnBlock>
    requires placed { IsPlaced host.now.kept.config.sizes who.now }
    requires area { IsArea host.now.kept.config.sizes at.now.base }
    requires begun { IsBegun block }
    requires turned { IsTurned host.now.kept who.now at.now }
    ensures exact { (m : MemberState) → member_numbered (state_in host.now.kept) who.now.number ≡ Some m → m.who ≡ who.now
        → result ≡ Some (record { offset = block_at (state_in host.now.kept) m at.now; spelled = record_at (state_in host.now.kept) m at.now block }) }
    ensures rules { IfSome result (λ own. IsLeaseRecord own.spelled) }
{
    let member = host.members().numbered(who.number)?;
    match member.lease(at) {
        Some(lease) => {
            let turn = lease.next_turn();
            let name = lease.name();
            Some(block_of(host, who, at, turn, name, block))
        }
        None => Some(block_of(host, who, at, 1, None, block)),
    }
}

/// The record of a leader.
fn leader_record(host: &Host, leader: Leader) -> Rec
    requires { Fits leader.lver }
    ensures exact { result ≡ leader_record (layout_of host.now.kept.config.sizes) leader }
    ensures rules { IsLeaseRecord result }
{
    if is_paired(host) {
        Rec::PairLeaderIs(leader)
    } else {
        Rec::LeaderIs(leader)
    }
}

/// Where the blocks begin.
fn first_block(host: &Host, at: &Spot) -> u64
    requires { IsArea host.now.kept.config.sizes at.now.base }
    ensures { result ≡ block_offset (layout_of host.now.kept.config.sizes) at.now.base 1 }
{
    let config = host.config();
    let _hosts = config.geometry.hosts();
    config.geometry.block_place(at.base, 1).offset()
}

/// Where a step reads.
fn read_from(host: &Host, at: &Spot, step: &LeaseStep) -> u64
    requires { IsArea host.now.kept.config.sizes at.now.base }
    ensures { result ≡ read_from (state_in host.now.kept) at.now step.now }
{
    if reads_area(step) {
        at.base
    } else {
        first_block(host, at)
    }
}

/// How many sectors it reads.
fn sectors_of(host: &Host, step: &LeaseStep) -> u32
    ensures { result ≡ sectors_read (state_in host.now.kept) step.now }
{
    let config = host.config();
    sectors_read(&config.geometry, step)
}

/// The blocks, or the whole area, are read.
fn read(host: &mut Host, who: &Session, at: &Spot, work: Work, step: LeaseStep)
    requires calls { 1 ≤ host.old.calls }
    requires moment { host.old.kept.reading < moments }
    requires area { IsArea host.old.kept.config.sizes at.now.base }
    ensures state { Becomes host.old host.new (reading who.now at.now work step) }
    ensures run { SameRun host.old host.new }
    ensures left { Spends host.old host.new 0 1 }
{
    let offset = read_from(host, at, &step);
    let sectors = sectors_of(host, &step);
    let purpose = Purpose::Lease { work, step };
    host.call(
        who.number,
        at.path,
        purpose,
        offset,
        Op::ReadSectors { sectors },
    );
}

/// Leader or own block is written.
fn write(
    host: &mut Host,
    who: &Session,
    at: &Spot,
    work: Work,
    step: LeaseStep,
    offset: u64,
    spelled: Rec,
)
    requires calls { 1 ≤ host.old.calls }
    requires moment { host.old.kept.reading < moments }
    requires rules { IsLeaseRecord spelled }
    ensures state { Becomes host.old host.new (with_call who.now.number at.now.path (LeaseWork work step) offset (WriteRecord spelled)) }
    ensures run { SameRun host.old host.new }
    ensures left { Spends host.old host.new 0 1 }
{
    let purpose = Purpose::Lease { work, step };
    host.call(
        who.number,
        at.path,
        purpose,
        offset,
        Op::WriteRecord { record: spelled },
    );
}

/// The own block is written, if there is one.
fn write_own(
    host: &mut Host,
    who: &Session,
    at: &Spot,
    work: Work,
    step: LeaseStep,
    own: Option<OwnBlock>,
)
    requires calls { 1 ≤ host.old.calls }
    requires moment { host.old.kept.reading < moments }
    requires rules { IfSome own (λ o. IsLeaseRecord o.spelled) }
    ensures state { IfSome own (λ o. Becomes host.old host.new (with_call who.now.number at.now.path (LeaseWork work step) o.offset (WriteRecord o.spelled))) }
    ensures run { SameRun host.old host.new }
    ensures left { Spends host.old host.new 0 1 }
{
    match own {
        Some(own) => write(host, who, at, work, step, own.offset, own.spelled),
        None => {}
    }
}

/// The own block is written, with pairs with the next turn at the place of that turn.
fn write_block(host: &mut Host, who: &Session, at: &Spot, work: Work, step: LeaseStep, block: Block)
    requires calls { 1 ≤ host.old.calls }
    requires moment { host.old.kept.reading < moments }
    requires placed { IsPlaced host.old.kept.config.sizes who.now }
    requires area { IsArea host.old.kept.config.sizes at.now.base }
    requires block { IsBegun block }
    requires turned { IsTurned host.old.kept who.now at.now }
    ensures state { (m : MemberState) → member_numbered (state_in host.old.kept) who.now.number ≡ Some m → m.who ≡ who.now
        → Becomes host.old host.new (writing_block m at.now work step block) }
    ensures run { SameRun host.old host.new }
    ensures left { Spends host.old host.new 0 1 }
{
    let own = own_block(host, who, at, block);
    write_own(host, who, at, work, step, own);
}

/// The leader is written.
fn write_leader(
    host: &mut Host,
    who: &Session,
    at: &Spot,
    work: Work,
    step: LeaseStep,
    leader: Leader,
)
    requires calls { 1 ≤ host.old.calls }
    requires moment { host.old.kept.reading < moments }
    requires leader { Fits leader.lver }
    ensures state { Becomes host.old host.new (writing_leader who.now at.now work step leader) }
    ensures run { SameRun host.old host.new }
    ensures left { Spends host.old host.new 0 1 }
{
    let spelled = leader_record(host, leader);
    write(host, who, at, work, step, at.base, spelled);
}

/// The holding is shared from here on, and the leader is written free.
fn become_shared(host: &mut Host, who: &Session, at: &Spot, work: &Work, lver: u64, leader: Leader)
    requires left { 3 ≤ host.old.left }
    requires calls { 1 ≤ host.old.calls }
    requires moment { host.old.kept.reading < moments }
    requires leader { Fits leader.lver }
    ensures state { Becomes host.old host.new (λ h. writing_leader who.now at.now Settling FreeLeader leader (converted_under who.now at.now work.now Shared lver h)) }
    ensures run { SameRun host.old host.new }
    ensures left { Spends host.old host.new 3 1 }
{
    converted(host, who, at, work, Mode::Shared, lver);
    write_leader(host, who, at, Work::Settling, LeaseStep::FreeLeader, leader);
}

/// The holding is exclusive from here on, and the own block is written without the mode.
fn become_exclusive(host: &mut Host, who: &Session, at: &Spot, work: &Work, lver: u64, block: Block)
    requires left { 3 ≤ host.old.left }
    requires calls { 1 ≤ host.old.calls }
    requires moment { host.old.kept.reading < moments }
    requires placed { IsPlaced host.old.kept.config.sizes who.now }
    requires area { IsArea host.old.kept.config.sizes at.now.base }
    requires block { IsBegun block }
    requires turned { IsTurned host.old.kept who.now at.now }
    ensures state { (m : MemberState) → member_numbered (state_in host.old.kept) who.now.number ≡ Some m → m.who ≡ who.now
        → Becomes host.old host.new (λ h. writing_block m at.now Settling ClearMode block (converted_under who.now at.now work.now Exclusive lver h)) }
    ensures run { SameRun host.old host.new }
    ensures left { Spends host.old host.new 3 1 }
{
    let own = own_block(host, who, at, block);
    converted(host, who, at, work, Mode::Exclusive, lver);
    write_own(host, who, at, Work::Settling, LeaseStep::ClearMode, own);
}

/// What a session's lease on an area decided is done.
pub fn carry_lease(host: &mut Host, who: &Session, at: &Spot, work: Work, next: LeaseNext)
    requires left { 3 ≤ host.old.left }
    requires calls { 1 ≤ host.old.calls }
    requires moment { host.old.kept.reading < moments }
    requires placed { IsPlaced host.old.kept.config.sizes who.now }
    requires area { IsArea host.old.kept.config.sizes at.now.base }
    requires fit { IsFit next }
    requires turned { writes_own_block next ≡ true → IsTurned host.old.kept who.now at.now }
    ensures state { (m : MemberState) → member_numbered (state_in host.old.kept) who.now.number ≡ Some m → m.who ≡ who.now → Becomes host.old host.new (carrying_lease m at.now work next) }
    ensures run { SameRun host.old host.new }
    ensures left { Spends host.old host.new 3 1 }
{
    match next {
        LeaseNext::Nothing => {}
        LeaseNext::ReadFor(step) => read(host, who, at, work, step),
        LeaseNext::WriteBlock { step, block } => write_block(host, who, at, work, step, block),
        LeaseNext::WriteLeader { step, leader } => write_leader(host, who, at, work, step, leader),
        LeaseNext::AnswerJob(reply) => answer_job(host, &work, reply),
        LeaseNext::GrantJob { mode, lver } => grant_job(host, who, &work, mode, lver),
        LeaseNext::BecomeShared { lver, leader } => {
            become_shared(host, who, at, &work, lver, leader)
        }
        LeaseNext::BecomeExclusive { lver, block } => {
            become_exclusive(host, who, at, &work, lver, block)
        }
    }
}
