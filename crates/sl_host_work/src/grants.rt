//! Grants: a process holds a resource from here on, a program is started that holds it, a holding goes on in another mode. The job is answered.

ghost use Rattle.sl_due.specs.CarriedLease.{grant_of};
ghost use Rattle.sl_host_law.specs.Answers.LeaseDecisions.{converting, for_command_of, for_work_of, granting_for, starting};
ghost use Rattle.sl_host_state.specs.MadeEffects.{with_grant, with_reply};
ghost use Rattle.sl_host_work.specs.LeaseWork.{converted_under, converting_under, otherwise_under};
ghost use Rattle.sl_trace.specs.Jobs.{process_named};
ghost use Rattle.sl_trace.specs.Sessions.{is_join_done};
ghost use Rattle.sl_trace.specs.Traces.{end_of, is_shared, work_job};
ghost use Rattle.sl_trace.specs.declared.reply.Reply.TheVariants.{Granted};
ghost use Rattle.sl_host.specs.Host.{Becomes, SameRun, Spends};
ghost use Rattle.std.specs.Prelude.{false, not, ◌≡◌, ◌≤◌};

use sl_host::Host;
use sl_tables::Holder;
use sl_text::FilePath;
use sl_trace::{Command, Grant, Mode, Reply, ResourceArg, Session, Spot, Start, Work, end_of};

/// A grant under the session, with the names of the command.
fn grant_of(
    who: &Session,
    resource: &ResourceArg,
    process: u32,
    mode: Mode,
    lver: u64,
    persistent: bool,
) -> Grant
    ensures { result ≡ grant_of who.now resource.now process mode lver persistent }
{
    Grant {
        process,
        session: who.number,
        lockspace: resource.lockspace,
        resource: resource.name,
        path: resource.path,
        offset: resource.offset,
        mode,
        lver,
        persistent,
    }
}

/// A program is started for the job, and holds the resource from here on.
fn start(
    host: &mut Host,
    who: &Session,
    job: u64,
    resource: &ResourceArg,
    program: FilePath,
    mode: Mode,
    lver: u64,
)
    requires left { 2 ≤ host.old.left }
    ensures state { Becomes host.old host.new (starting who.now job resource.now program mode lver) }
    ensures run { SameRun host.old host.new }
    ensures left { Spends host.old host.new 2 0 }
{
    let process = host.next_child();
    host.grant(grant_of(who, resource, process, mode, lver, false));
    host.start(Start {
        process,
        program,
        job: Some(job),
        stands_for: None,
    });
}

/// The process is granted the resource, and the job is answered.
fn grant(host: &mut Host, job: u64, held: Grant)
    requires left { 2 ≤ host.old.left }
    ensures state { Becomes host.old host.new (λ h. with_reply job (Granted held.lver) (with_grant held h)) }
    ensures run { SameRun host.old host.new }
    ensures left { Spends host.old host.new 2 0 }
{
    let lver = held.lver;
    host.grant(held);
    host.reply(job, Reply::Granted { lver });
}

/// What the command of a job asked for is granted: its process holds the resource, or the program that is started for it.
pub fn grant_for(host: &mut Host, who: &Session, job: u64, command: &Command, mode: Mode, lver: u64)
    requires left { 2 ≤ host.old.left }
    ensures state { Becomes host.old host.new (granting_for who.now job command.now mode lver) }
    ensures run { SameRun host.old host.new }
    ensures left { Spends host.old host.new 2 0 }
{
    match command {
        Command::Acquire {
            resource,
            process,
            persistent,
            ..
        }
        | Command::TakeOver {
            resource,
            process,
            persistent,
            ..
        } => grant(
            host,
            job,
            grant_of(who, resource, *process, mode, lver, *persistent),
        ),
        Command::RunProgram {
            resource,
            program,
            ..
        } => start(host, who, job, resource, *program, mode, lver),
        _ => {}
    }
}

// ---- conversions

/// A holding goes on in this mode, and the job is answered.
fn convert(host: &mut Host, job: u64, mode: Mode, lver: u64, held: &Grant)
    requires left { 3 ≤ host.old.left }
    ensures state { Becomes host.old host.new (converting job mode lver held.now) }
    ensures run { SameRun host.old host.new }
    ensures left { Spends host.old host.new 3 0 }
{
    host.end(end_of(held));
    grant(
        host,
        job,
        Grant {
            mode,
            lver,
            ..*held
        },
    );
}

/// The mode of a holding that a conversion to this mode ends.
fn other_mode(mode: Mode) -> Mode
    ensures { is_shared result ≡ not (is_shared mode) }
{
    match mode {
        Mode::Exclusive => Mode::Shared,
        Mode::Shared => Mode::Exclusive,
    }
}

/// The holding of a process under the session, on an area, in the other mode.
fn held_otherwise(host: &Host, who: &Session, at: &Spot, process: u32, mode: Mode) -> Option<Grant>
    ensures { result ≡ otherwise_under who.now at.now process mode host.now.kept.holdings }
{
    let holder = Holder::Is(process);
    match host.held(who.number, at, holder, Some(other_mode(mode))) {
        Some(held) => Some(*held),
        None => None,
    }
}

/// The process that the command names; none where its words have none.
pub fn process_named(command: &Command) -> Option<u32>
    ensures { result ≡ process_named command.now }
{
    match command {
        Command::Acquire { process, .. }
        | Command::TakeOver { process, .. }
        | Command::Release { process, .. }
        | Command::Convert { process, .. }
        | Command::GetLvb { process, .. }
        | Command::SetLvb { process, .. }
        | Command::SetKillpath { process, .. } => Some(*process),
        _ => None,
    }
}

/// That of the process which the command of a job names.
fn convert_for(
    host: &mut Host,
    who: &Session,
    at: &Spot,
    job: u64,
    command: &Command,
    mode: Mode,
    lver: u64,
)
    requires left { 3 ≤ host.old.left }
    ensures state { Becomes host.old host.new (converting_under who.now at.now job command.now mode lver) }
    ensures run { SameRun host.old host.new }
    ensures left { Spends host.old host.new 3 0 }
{
    if let Some(process) = process_named(command) {
        if let Some(held) = held_otherwise(host, who, at, process, mode) {
            convert(host, job, mode, lver, &held);
        }
    }
}

/// The job on whose account the work is done.
fn work_job(work: &Work) -> Option<u64>
    ensures { result ≡ work_job work.now }
{
    match work {
        Work::ForJob { job } => Some(*job),
        Work::Settling => None,
    }
}

/// The conversion that the job asked for is done.
pub(crate) fn converted(
    host: &mut Host,
    who: &Session,
    at: &Spot,
    work: &Work,
    mode: Mode,
    lver: u64,
)
    requires left { 3 ≤ host.old.left }
    ensures state { Becomes host.old host.new (converted_under who.now at.now work.now mode lver) }
    ensures run { SameRun host.old host.new }
    ensures left { Spends host.old host.new 3 0 }
{
    if let Some(job) = work_job(work) {
        if let Some(command) = host.command_of(job) {
            convert_for(host, who, at, job, &command, mode, lver);
        }
    }
}

/// What the job asked for is granted.
pub(crate) fn grant_job(host: &mut Host, who: &Session, work: &Work, mode: Mode, lver: u64)
    requires left { 2 ≤ host.old.left }
    ensures state { Becomes host.old host.new (for_work_of work.now (λ j. for_command_of j (λ c. granting_for who.now j c mode lver))) }
    ensures run { SameRun host.old host.new }
    ensures left { Spends host.old host.new 2 0 }
{
    if let Some(job) = work_job(work) {
        if let Some(command) = host.command_of(job) {
            grant_for(host, who, job, &command, mode, lver);
        }
    }
}

/// The job that the work is for has this reply; a settling has no job.
pub(crate) fn answer_job(host: &mut Host, work: &Work, reply: Reply)
    requires left { 1 ≤ host.old.left }
    requires plain { is_join_done reply ≡ false }
    ensures state { Becomes host.old host.new (for_work_of work.now (λ j. with_reply j reply)) }
    ensures run { SameRun host.old host.new }
    ensures left { Spends host.old host.new 1 0 }
{
    if let Some(job) = work_job(work) {
        host.reply(job, reply);
    }
}
