//! What the holder of an id's sector is to do is done: at most one move of its connection, one call and one reply.
//!
//! A joining acts for its job. A session that the setting gives has none, and never joins.

ghost use Rattle.sl_area.specs.AreaSizes.{layout_of};
ghost use Rattle.sl_area.specs.AreaLayout.{delta_offset};
ghost use Rattle.sl_delta.specs.DeltaDecisions.{IsFitNext};
ghost use Rattle.sl_delta.specs.OwnSector.{IsOwnRecord};
ghost use Rattle.sl_host_law.specs.Answers.CarriedDecisions.{carrying, connecting, for_job_of, reading_own, registering, surveying, writing_own};
ghost use Rattle.sl_host_law.specs.Answers.RefusalsFollow.{refusing};
ghost use Rattle.sl_host_law.specs.StepParts.Ends.{removing};
ghost use Rattle.sl_host_law.specs.Questions.Jobs.{running_in};
ghost use Rattle.sl_host_state.specs.MadeEffects.{with_reply};
ghost use Rattle.sl_host_work.specs.NextDecisions.{IsPlain};
ghost use Rattle.sl_host_work.specs.SectorPlaces.{IsPlaced};
ghost use Rattle.sl_trace.specs.Sessions.{is_join_done};
ghost use Rattle.sl_time.specs.Times.{fail};
ghost use Rattle.sl_trace.specs.declared.effects.JoinStep.TheVariants.{ClaimWrite, FirstRenewal};
ghost use Rattle.sl_trace.specs.declared.effects.Purpose.TheVariants.{Joining};
ghost use Rattle.sl_trace.specs.declared.reply.Reply.TheVariants.{Generation};
ghost use Rattle.sl_trace.specs.declared.delta.DeltaNext.TheVariants.{Join};
ghost use Rattle.sl_host.specs.ReplyJoinings.{HasClaims};
ghost use Rattle.sl_host.specs.Host.{Becomes, SameRun, Spends};
ghost use Rattle.sl_words.specs.Bounds.{moments};
ghost use Rattle.std.specs.Prelude.{Some, cond, false, ℕ, ◌+◌, ◌-◌, ◌<◌, ◌≡◌, ◌≤◌};

use crate::ends::remove_connection;
use crate::refusals::refuse;
use sl_host::Host;
use sl_sector::{DeltaRec, Rec};
use sl_trace::{DeltaNext, JoinStep, Move, Op, Purpose, Reply, Session};

/// Where the session's own sector stands.
fn own_sector(host: &Host, who: &Session) -> u64
    requires { IsPlaced host.now.kept.config.sizes who.now }
    ensures { result ≡ delta_offset (layout_of host.now.kept.config.sizes) who.now.offset who.now.id }
{
    let config = host.config();
    config.geometry.delta_place(who.offset, who.id).offset()
}

/// How many ids there are.
fn hosts(host: &Host) -> u32
    ensures { result ≡ host.now.kept.config.sizes.hosts }
{
    host.config().geometry.hosts()
}

/// When a connection expires whose session was renewed at this reading.
fn expiry(host: &Host, renewed: u64) -> u64
    requires { renewed < moments }
    ensures { result ≡ renewed + fail host.now.kept.config.timing }
{
    renewed + host.config().timing.fail()
}

/// The own sector is read. It uses one call of the room.
fn read_own(host: &mut Host, who: &Session, purpose: Purpose)
    requires calls { 1 ≤ host.old.calls }
    requires moment { host.old.kept.reading < moments }
    requires placed { IsPlaced host.old.kept.config.sizes who.now }
    ensures state { Becomes host.old host.new (reading_own who.now purpose) }
    ensures run { SameRun host.old host.new }
    ensures left { Spends host.old host.new 0 1 }
{
    let offset = own_sector(host, who);
    host.call(
        who.number,
        who.path,
        purpose,
        offset,
        Op::ReadSectors { sectors: 1 },
    );
}

/// The own sector is written with this record. It uses one call of the room.
pub(crate) fn write_own(host: &mut Host, who: &Session, purpose: Purpose, written: DeltaRec)
    requires calls { 1 ≤ host.old.calls }
    requires moment { host.old.kept.reading < moments }
    requires placed { IsPlaced host.old.kept.config.sizes who.now }
    requires written { IsOwnRecord written }
    ensures state { Becomes host.old host.new (writing_own who.now purpose written) }
    ensures run { SameRun host.old host.new }
    ensures left { Spends host.old host.new 0 1 }
{
    let offset = own_sector(host, who);
    host.call(
        who.number,
        who.path,
        purpose,
        offset,
        Op::WriteRecord {
            record: Rec::DeltaIs(written),
        },
    );
}

/// All ids' sectors are read.
fn survey(host: &mut Host, who: &Session)
    requires calls { 1 ≤ host.old.calls }
    requires moment { host.old.kept.reading < moments }
    ensures state { Becomes host.old host.new (surveying who.now) }
    ensures run { SameRun host.old host.new }
    ensures left { Spends host.old host.new 0 1 }
{
    let sectors = hosts(host);
    host.call(
        who.number,
        who.path,
        Purpose::Survey,
        who.offset,
        Op::ReadSectors { sectors },
    );
}

/// The session's connection is registered, until `fail` after now.
fn register(host: &mut Host, who: &Session)
    requires left { 1 ≤ host.old.left }
    requires moment { host.old.kept.reading < moments }
    ensures state { Becomes host.old host.new (registering who.now) }
    ensures run { SameRun host.old host.new }
    ensures left { Spends host.old host.new 1 0 }
{
    let now = host.reading();
    let expiry = expiry(host, now);
    host.move_on(Move::Register {
        lockspace: who.lockspace,
        expiry,
    });
}

/// It moves, until `fail` after a renewal that was submitted at this reading.
fn connect(host: &mut Host, who: &Session, renewed: u64)
    requires left { 1 ≤ host.old.left }
    requires renewed { renewed < moments }
    ensures state { Becomes host.old host.new (connecting who.now renewed) }
    ensures members { host.new.kept.members ≡ host.old.kept.members }
    ensures run { SameRun host.old host.new }
    ensures left { Spends host.old host.new 1 0 }
{
    let expiry = expiry(host, renewed);
    host.move_on(Move::Renew {
        lockspace: who.lockspace,
        expiry,
    });
}

/// The own sector is read for a joining.
fn read_for_job(host: &mut Host, who: &Session, step: JoinStep)
    requires calls { 1 ≤ host.old.calls }
    requires moment { host.old.kept.reading < moments }
    requires placed { IsPlaced host.old.kept.config.sizes who.now }
    ensures state { Becomes host.old host.new (for_job_of who.now (λ j. reading_own who.now (Joining j step))) }
    ensures run { SameRun host.old host.new }
    ensures left { Spends host.old host.new 0 1 }
{
    if let Some(job) = who.job {
        read_own(host, who, Purpose::Joining { job, step });
    }
}

/// The session registers, and its own sector is read for its joining.
fn register_and_read(host: &mut Host, who: &Session, step: JoinStep)
    requires left { 1 ≤ host.old.left }
    requires calls { 1 ≤ host.old.calls }
    requires moment { host.old.kept.reading < moments }
    requires placed { IsPlaced host.old.kept.config.sizes who.now }
    ensures state { Becomes host.old host.new (for_job_of who.now (λ j h. reading_own who.now (Joining j step) (registering who.now h))) }
    ensures run { SameRun host.old host.new }
    ensures left { Spends host.old host.new 1 1 }
{
    if let Some(job) = who.job {
        register(host, who);
        read_own(host, who, Purpose::Joining { job, step });
    }
}

/// A record is written for its joining.
fn write_for_job(host: &mut Host, who: &Session, step: JoinStep, written: DeltaRec)
    requires calls { 1 ≤ host.old.calls }
    requires moment { host.old.kept.reading < moments }
    requires placed { IsPlaced host.old.kept.config.sizes who.now }
    requires written { IsOwnRecord written }
    ensures state { Becomes host.old host.new (for_job_of who.now (λ j. writing_own who.now (Joining j step) written)) }
    ensures run { SameRun host.old host.new }
    ensures left { Spends host.old host.new 0 1 }
{
    if let Some(job) = who.job {
        write_own(host, who, Purpose::Joining { job, step }, written);
    }
}

/// The connection moves after a renewal that counts, and all ids are read.
fn move_and_survey(host: &mut Host, who: &Session, renewed: u64)
    requires left { 1 ≤ host.old.left }
    requires calls { 1 ≤ host.old.calls }
    requires moment { host.old.kept.reading < moments }
    requires renewed { renewed < moments }
    ensures state { Becomes host.old host.new (λ h. surveying who.now (connecting who.now renewed h)) }
    ensures run { SameRun host.old host.new }
    ensures left { Spends host.old host.new 1 1 }
{
    connect(host, who, renewed);
    survey(host, who);
}

/// The joining is refused.
fn refuse_join(host: &mut Host, who: &Session, reply: Reply)
    requires left { 2 ≤ host.old.left }
    requires plain { is_join_done reply ≡ false }
    ensures state { Becomes host.old host.new (for_job_of who.now (λ j. refusing j reply)) }
    ensures run { SameRun host.old host.new }
    ensures left { Spends host.old host.new 2 0 }
{
    if let Some(job) = who.job {
        refuse(host, job, reply);
    }
}

/// The session is joined: its connection moves, its job is answered, and all ids are read.
fn join(host: &mut Host, who: &Session, generation: u64, renewed: u64)
    requires left { 2 ≤ host.old.left }
    requires calls { 1 ≤ host.old.calls }
    requires moment { host.old.kept.reading < moments }
    requires renewed { renewed < moments }
    requires claimed { (j : ℕ) → who.now.job ≡ Some j → HasClaims j host.old.kept.members }
    ensures state { Becomes host.old host.new (for_job_of who.now (λ j h. surveying who.now (with_reply j (Generation generation) (connecting who.now renewed h)))) }
    ensures run { SameRun host.old host.new }
    ensures left { Spends host.old host.new 2 1 }
{
    if let Some(job) = who.job {
        connect(host, who, renewed);
        host.join_done(job, generation);
        survey(host, who);
    }
}

/// The leaving is over: the connection goes, and its job is answered, if it runs.
fn end_leaving(host: &mut Host, who: &Session, job: u64, reply: Reply)
    requires left { 2 ≤ host.old.left }
    requires plain { is_join_done reply ≡ false }
    ensures state { Becomes host.old host.new (λ h. cond (running_in h job) (with_reply job reply (removing who.now.lockspace h)) (removing who.now.lockspace h)) }
    ensures run { SameRun host.old host.new }
    ensures left { Spends host.old host.new 2 0 }
{
    let runs = host.runs(job);
    remove_connection(host, &who.lockspace);
    if runs {
        host.reply(job, reply);
    }
}

/// What a session's delta lease decided is done: at most one move, one reply and one call.
pub fn carry(host: &mut Host, who: &Session, next: DeltaNext)
    requires left { 2 ≤ host.old.left }
    requires calls { 1 ≤ host.old.calls }
    requires moment { host.old.kept.reading < moments }
    requires placed { IsPlaced host.old.kept.config.sizes who.now }
    requires fit { IsFitNext next }
    requires plain { IsPlain next }
    requires claimed { (j generation renewed : ℕ) → who.now.job ≡ Some j → next ≡ Join generation renewed → HasClaims j host.old.kept.members }
    ensures state { Becomes host.old host.new (carrying who.now next) }
    ensures run { SameRun host.old host.new }
    ensures left { Spends host.old host.new 2 1 }
{
    match next {
        DeltaNext::Nothing => {}
        DeltaNext::RefuseJoin(reply) => refuse_join(host, who, reply),
        DeltaNext::ReadOwn(step) => read_for_job(host, who, step),
        DeltaNext::RegisterAndRead(step) => register_and_read(host, who, step),
        DeltaNext::WriteClaim(claim) => write_for_job(host, who, JoinStep::ClaimWrite, claim),
        DeltaNext::Disconnect => remove_connection(host, &who.lockspace),
        DeltaNext::WriteFirst(first) => write_for_job(host, who, JoinStep::FirstRenewal, first),
        DeltaNext::Join {
            generation,
            renewed,
        } => join(host, who, generation, renewed),
        DeltaNext::MoveConnection { renewed } => move_and_survey(host, who, renewed),
        DeltaNext::WriteRenewal(renewal) => write_own(host, who, Purpose::Renewal, renewal),
        DeltaNext::WriteFree { job, record } => {
            write_own(host, who, Purpose::Leaving { job }, record)
        }
        DeltaNext::EndLeaving { job, reply } => end_leaving(host, who, job, reply),
    }
}
