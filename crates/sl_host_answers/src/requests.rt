//! Calls on requests and values, answered: a request is written or refused after the read of leader and request, a value is told, and the holder
//! under an exclusive lease is told of a request that asks for more.

ghost use Rattle.sl_area.specs.AreaSizes.{layout_of};
ghost use Rattle.sl_area.specs.AreaLayout.{leader_of, read_at};
ghost use Rattle.sl_due.specs.DueRequests.{value_reply};
ghost use Rattle.sl_host_answers.specs.Facts.{RequestKnown};
ghost use Rattle.sl_host_answers.specs.Requests.{old_refusal, owner_by, refusal_by};
ghost use Rattle.sl_host_law.specs.Answers.Requests.{answering_job, requesting, requesting_for, writing_request};
ghost use Rattle.sl_host_law.specs.Steps.Passes.{at_member};
ghost use Rattle.sl_host_state.specs.MadeEffects.{with_reply};
ghost use Rattle.sl_host_work.specs.SectorPlaces.{IsArea};
ghost use Rattle.sl_trace.specs.Leases.{is_leader_of};
ghost use Rattle.sl_request.specs.Requests.{check_request};
ghost use Rattle.sl_sector.specs.SectorLayouts.{request_in};
ghost use Rattle.sl_trace.specs.Sessions.{is_join_done};
ghost use Rattle.sl_trace.specs.CommandForms.{IsCommand};
ghost use Rattle.sl_trace.specs.declared.command.Command.TheVariants.{Request as Requests};
ghost use Rattle.sl_trace.specs.declared.input.Answer.TheVariants.{Read};
ghost use Rattle.sl_host.specs.Host.{Becomes, SameRun, Spends};
ghost use Rattle.sl_words.specs.Bounds.{moments};
ghost use Rattle.std.specs.Prelude.{IfSome, IsTrue, cond, false, length, ◌*◌, ◌<◌, ◌==◌, ◌≡◌, ◌≤◌};

use crate::answer_owners::{only_record, request_place, session_of};
use sl_area::Geometry;
use sl_host::Host;
use sl_host_state::OpenCall;
use sl_lease::{Sectors, leader_of};
use sl_request::check_request;
use sl_sector::{Leader, Rec, Request, request_in, value_in};
use sl_text::Name;
use sl_trace::{Command, Op, Purpose, Reply, ResourceArg, Session};

// ---- a value is read

/// The reply by the sector of a value.
fn value_reply<S: Sectors>(geometry: &Geometry, sectors: &S) -> Reply
    requires cut { IsTrue (S.is_cut sectors.now geometry.now.sector) }
    requires one { length (S.bytes sectors.now) ≡ geometry.now.sector }
    ensures exact { result ≡ value_reply (layout_of geometry.now) (S.bytes sectors.now) }
    ensures plain { is_join_done result ≡ false }
{
    match value_in(only_record(geometry, sectors)) {
        Some(value) => Reply::Value {
            lver: value.lver,
            seq: value.seq,
            bytes: value.bytes,
        },
        None => Reply::ValueTorn,
    }
}

/// A value is read: its job is told it, if it runs.
pub fn answer_value<S: Sectors>(host: &mut Host, call: &OpenCall, job: u64, sectors: &S)
    requires left { 1 ≤ host.old.left }
    requires cut { IsTrue (S.is_cut sectors.now host.old.kept.config.sizes.sector) }
    requires one { length (S.bytes sectors.now) ≡ host.old.kept.config.sizes.sector }
    ensures state { Becomes host.old host.new (answering_job job call.now (Read (S.bytes sectors.now)) (λ bytes x. with_reply job (value_reply x.config.layout bytes) x) (λ x. x)) }
    ensures left { Spends host.old host.new 1 0 }
    ensures run { SameRun host.old host.new }
{
    if host.runs(job) {
        let reply = value_reply(&host.config().geometry, sectors);
        host.reply(job, reply);
    }
}

// ---- leader and request are read

/// What the read of leader and request gave: each, if its sector spells one.
#[derive(Clone, Copy)]
pub struct Asked {
    pub leader: Option<Leader>,
    pub request: Option<Request>,
}

/// Leader and request, by the two sectors that were read.
fn asked_of<S: Sectors>(host: &Host, sectors: &S) -> Asked
    requires cut { IsTrue (S.is_cut sectors.now host.now.kept.config.sizes.sector) }
    requires two { length (S.bytes sectors.now) ≡ 2 * host.now.kept.config.sizes.sector }
    ensures leader { result.leader ≡ leader_of (layout_of host.now.kept.config.sizes) (S.bytes sectors.now) }
    ensures request { result.request ≡ request_in (read_at (layout_of host.now.kept.config.sizes) (S.bytes sectors.now) 1) }
{
    let geometry = &host.config().geometry;
    Asked {
        leader: leader_of(geometry, sectors),
        request: request_in(sectors.record(geometry.sector(), 1)),
    }
}

/// Whether the leader is that of a resource: it has its names and the run's number of hosts.
fn is_leader_of(geometry: &Geometry, lockspace: &Name, resource: &Name, leader: &Leader) -> bool
    ensures { result ≡ is_leader_of (layout_of geometry.now) lockspace.now resource.now leader.now }
{
    leader.lockspace.as_slice() == lockspace.as_slice()
        && leader.resource.as_slice() == resource.as_slice()
        && leader.num_hosts == geometry.hosts()
}

/// Whether a request is taken.
fn is_taken(held: u64, stored: u64, asked: u64, force: u32) -> bool
    requires { force ≡ 0 → asked ≡ 0 }
    ensures { result ≡ check_request held stored asked force }
{
    check_request(held, stored, asked, force).is_ok()
}

/// A request that asks for too little is refused. Where none is spelled only one that clears is taken.
fn old_refusal(held: u64, asked: u64, force: u32, stands: &Option<Request>) -> Option<Reply>
    requires { force ≡ 0 → asked ≡ 0 }
    ensures exact { result ≡ old_refusal held asked force stands.now }
    ensures plain { IfSome result (λ r. is_join_done r ≡ false) }
{
    match stands {
        None => {
            if asked == 0 {
                None
            } else {
                Some(Reply::RequestOld { held, stored: None })
            }
        }
        Some(request) => {
            if is_taken(held, request.lver, asked, force) {
                None
            } else {
                Some(Reply::RequestOld {
                    held,
                    stored: Some(request.lver),
                })
            }
        }
    }
}

/// What a request is refused for, if it is: a torn leader, that of another resource, too little.
fn refusal_of(
    host: &Host,
    lockspace: &Name,
    resource: &ResourceArg,
    asked: u64,
    force: u32,
    read: &Asked,
) -> Option<Reply>
    requires { force ≡ 0 → asked ≡ 0 }
    ensures exact { result ≡ refusal_by (layout_of host.now.kept.config.sizes) lockspace.now resource.now asked force read.now.leader read.now.request }
    ensures plain { IfSome result (λ r. is_join_done r ≡ false) }
{
    match &read.leader {
        None => Some(Reply::TornLeader),
        Some(leader) => {
            let geometry = &host.config().geometry;
            if is_leader_of(geometry, lockspace, &resource.name, leader) {
                old_refusal(leader.lver, asked, force, &read.request)
            } else {
                Some(Reply::WrongArea {
                    lockspace: leader.lockspace,
                    resource: leader.resource,
                    hosts: leader.num_hosts,
                })
            }
        }
    }
}

/// The owner of a leader that is held.
fn owner_of(leader: &Option<Leader>) -> Option<u32>
    ensures { result ≡ owner_by leader.now }
{
    match leader {
        Some(leader) => {
            if leader.held {
                Some(leader.owner)
            } else {
                None
            }
        }
        None => None,
    }
}

/// Who is named by a request: nobody by one that clears.
fn host_named(who: &Session, asked: u64) -> u32
    ensures { result ≡ cond (asked == 0) 0 who.now.id }
{
    if asked == 0 { 0 } else { who.id }
}

/// The request is written, to this owner.
fn write_request(
    host: &mut Host,
    who: &Session,
    job: u64,
    owner: Option<u32>,
    resource: &ResourceArg,
    asked: u64,
    force: u32,
)
    requires calls { 1 ≤ host.old.calls }
    requires moment { host.old.kept.reading < moments }
    requires area { IsArea host.old.kept.config.sizes resource.now.offset }
    ensures state { Becomes host.old host.new (writing_request who.now job owner resource.now asked force) }
    ensures left { Spends host.old host.new 0 1 }
    ensures run { SameRun host.old host.new }
{
    let offset = request_place(host, resource.offset);
    let record = Rec::RequestIs(Request {
        force,
        host: host_named(who, asked),
        lver: asked,
    });
    host.call(
        who.number,
        resource.path,
        Purpose::RequestWrite { job, owner },
        offset,
        Op::WriteRecord { record },
    );
}

/// The request of a job is written or refused, by what the read of leader and request gave.
fn request<S: Sectors>(
    host: &mut Host,
    who: &Session,
    job: u64,
    resource: &ResourceArg,
    asked: u64,
    force: u32,
    sectors: &S,
)
    requires left { 1 ≤ host.old.left }
    requires calls { 1 ≤ host.old.calls }
    requires moment { host.old.kept.reading < moments }
    requires area { IsArea host.old.kept.config.sizes resource.now.offset }
    requires clears { force ≡ 0 → asked ≡ 0 }
    requires cut { IsTrue (S.is_cut sectors.now host.old.kept.config.sizes.sector) }
    requires two { length (S.bytes sectors.now) ≡ 2 * host.old.kept.config.sizes.sector }
    ensures state { Becomes host.old host.new (requesting who.now job (S.bytes sectors.now) (Requests resource.now asked force)) }
    ensures left { Spends host.old host.new 1 1 }
    ensures run { SameRun host.old host.new }
{
    let read = asked_of(host, sectors);
    match refusal_of(host, &who.lockspace, resource, asked, force, &read) {
        Some(reply) => host.reply(job, reply),
        None => {
            let owner = owner_of(&read.leader);
            write_request(host, who, job, owner, resource, asked, force);
        }
    }
}

/// By the command of the job.
fn request_by<S: Sectors>(host: &mut Host, who: &Session, job: u64, command: &Command, sectors: &S)
    requires left { 1 ≤ host.old.left }
    requires calls { 1 ≤ host.old.calls }
    requires moment { host.old.kept.reading < moments }
    requires command { IsCommand (layout_of host.old.kept.config.sizes) command.now }
    requires cut { IsTrue (S.is_cut sectors.now host.old.kept.config.sizes.sector) }
    requires two { length (S.bytes sectors.now) ≡ 2 * host.old.kept.config.sizes.sector }
    ensures state { Becomes host.old host.new (requesting who.now job (S.bytes sectors.now) command.now) }
    ensures left { Spends host.old host.new 1 1 }
    ensures run { SameRun host.old host.new }
{
    match command {
        Command::Request {
            resource,
            lver,
            force,
        } => request(host, who, job, resource, *lver, *force, sectors),
        _ => {}
    }
}

/// For a job that runs.
fn request_for<S: Sectors>(host: &mut Host, who: &Session, call: &OpenCall, job: u64, sectors: &S)
    requires left { 1 ≤ host.old.left }
    requires calls { 1 ≤ host.old.calls }
    requires known { RequestKnown host.old.kept job }
    requires cut { IsTrue (S.is_cut sectors.now host.old.kept.config.sizes.sector) }
    requires two { length (S.bytes sectors.now) ≡ 2 * host.old.kept.config.sizes.sector }
    ensures state { Becomes host.old host.new (answering_job job call.now (Read (S.bytes sectors.now)) (requesting_for who.now job) (λ g. g)) }
    ensures left { Spends host.old host.new 1 1 }
    ensures run { SameRun host.old host.new }
{
    if host.runs(job) {
        if let Some(command) = host.command_of(job) {
            request_by(host, who, job, &command, sectors);
        }
    }
}

/// Leader and request are read for a job of this call's session: the request is written or refused, if the job runs.
pub fn answer_request<S: Sectors>(host: &mut Host, call: &OpenCall, job: u64, sectors: &S)
    requires left { 1 ≤ host.old.left }
    requires calls { 1 ≤ host.old.calls }
    requires known { RequestKnown host.old.kept job }
    requires cut { IsTrue (S.is_cut sectors.now host.old.kept.config.sizes.sector) }
    requires two { length (S.bytes sectors.now) ≡ 2 * host.old.kept.config.sizes.sector }
    ensures state { Becomes host.old host.new (at_member call.now.session (λ m. answering_job job call.now (Read (S.bytes sectors.now)) (requesting_for m.who job) (λ g. g))) }
    ensures left { Spends host.old host.new 1 1 }
    ensures run { SameRun host.old host.new }
{
    if let Some(who) = session_of(host, call.session) {
        request_for(host, &who, call, job, sectors);
    }
}
