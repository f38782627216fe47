//! Processes: one exits, or the start of a child is answered.

ghost use Rattle.sl_host_law.specs.StepParts.Exits.{exiting};
ghost use Rattle.sl_host_law.specs.StepParts.Spawns.{replying_if, spawning, started_in, terming};
ghost use Rattle.sl_host_law.specs.Steps.Inputs.{starting};
ghost use Rattle.sl_host_state.specs.HeardInputs.{heard_exit};
ghost use Rattle.sl_host_work.specs.ProcessHoldings.{HoldsOnce};
ghost use Rattle.sl_trace.specs.Sessions.{is_join_done};
ghost use Rattle.sl_tables.specs.Children.{child_of};
ghost use Rattle.sl_trace.specs.Traces.{no_process};
ghost use Rattle.sl_host.specs.BookQuestions.{state_in};
ghost use Rattle.sl_host.specs.Host.{Becomes, SameRun, Spends};
ghost use Rattle.std.specs.Prelude.{false, length, ◌*◌, ◌+◌, ◌==◌, ◌≡◌, ◌≤◌};

use sl_host::{Host, Notes};
use sl_host_work::{end_holdings, leave_holdings, refuse_of_process};
use sl_tables::ChildState;
use sl_trace::{Grant, Reply, Sent, Signal};

/// A process has exited: its holdings end, the persistent ones are the machine's orphans from here on, its jobs are refused. Process 0 is none.
pub fn exit(host: &mut Host, orphans: &mut Notes<Grant>, numbers: &mut Notes<u64>, process: u32)
    requires once { HoldsOnce process host.old.kept.holdings }
    requires left { 2 * length host.old.kept.holdings + length host.old.kept.jobs ≤ host.old.left }
    requires orphans { length host.old.kept.holdings ≤ orphans.old.most }
    requires room { length host.old.kept.jobs ≤ numbers.old.most }
    ensures state { Becomes host.old host.new (λ h. exiting process (heard_exit process h)) }
    ensures left { Spends host.old host.new (2 * length host.old.kept.holdings + length host.old.kept.jobs) 0 }
    ensures run { SameRun host.old host.new }
    ensures orphans { orphans.new.most ≡ orphans.old.most }
    ensures notes { numbers.new.most ≡ numbers.old.most }
{
    host.hear_exit(process);
    if process != 0 {
        leave_holdings(host, process, orphans);
        refuse_of_process(host, numbers, process);
    }
}

/// The job is answered, if there is one, and it runs.
fn reply_to(host: &mut Host, job: Option<u64>, reply: Reply)
    requires left { 1 ≤ host.old.left }
    requires plain { is_join_done reply ≡ false }
    ensures state { Becomes host.old host.new (replying_if job reply) }
    ensures left { Spends host.old host.new 1 0 }
    ensures run { SameRun host.old host.new }
{
    match job {
        Some(job) if host.runs(job) => host.reply(job, reply),
        _ => {}
    }
}

/// The term for which a child stood is sent.
fn send_term(host: &mut Host, stands_for: Option<u32>)
    requires { 1 ≤ host.old.left }
    ensures state { Becomes host.old host.new (terming stands_for) }
    ensures left { Spends host.old host.new 1 0 }
    ensures run { SameRun host.old host.new }
{
    match stands_for {
        Some(process) => host.signal(Sent {
            process,
            signal: Signal::Term,
        }),
        None => {}
    }
}

/// The reply that a child runs, with the instance that it holds.
fn started(host: &Host, process: u32) -> Reply
    ensures exact { result ≡ started_in (state_in host.now.kept) process }
    ensures plain { is_join_done result ≡ false }
{
    let lver = match host.first_of(process) {
        Some(grant) => grant.lver,
        None => 0,
    };
    Reply::Started { lver, process }
}

/// A child was not started: what it held ends, its job is refused, and the term for which it stood is sent.
fn not_started(host: &mut Host, orphans: &mut Notes<Grant>, process: u32, child: &ChildState)
    requires once { HoldsOnce process host.old.kept.holdings }
    requires some { (process == no_process) ≡ false }
    requires left { length host.old.kept.holdings + 2 ≤ host.old.left }
    requires orphans { length host.old.kept.holdings ≤ orphans.old.most }
    ensures state { Becomes host.old host.new (spawning process false (child_of child.now)) }
    ensures left { Spends host.old host.new (length host.old.kept.holdings + 2) 0 }
    ensures run { SameRun host.old host.new }
    ensures orphans { orphans.new.most ≡ orphans.old.most }
{
    end_holdings(host, process, orphans);
    reply_to(host, child.job, Reply::SpawnFault);
    send_term(host, child.stands_for);
}

/// The start of a child that is kept is answered, and heard.
fn answer_start(
    host: &mut Host,
    orphans: &mut Notes<Grant>,
    process: u32,
    ok: bool,
    child: &ChildState,
)
    requires once { HoldsOnce process host.old.kept.holdings }
    requires some { (process == no_process) ≡ false }
    requires left { length host.old.kept.holdings + 2 ≤ host.old.left }
    requires orphans { length host.old.kept.holdings ≤ orphans.old.most }
    ensures state { Becomes host.old host.new (spawning process ok (child_of child.now)) }
    ensures left { Spends host.old host.new (length host.old.kept.holdings + 2) 0 }
    ensures run { SameRun host.old host.new }
    ensures orphans { orphans.new.most ≡ orphans.old.most }
{
    if ok {
        let reply = started(host, process);
        reply_to(host, child.job, reply);
    } else {
        not_started(host, orphans, process, child);
    }
}

/// The start of a child is answered: the command that waits for it is; what it held ends where it was not started, and where it stood for a term,
/// that is sent.
pub fn spawned(host: &mut Host, orphans: &mut Notes<Grant>, process: u32, ok: bool)
    requires once { HoldsOnce process host.old.kept.holdings }
    requires some { (process == no_process) ≡ false }
    requires left { length host.old.kept.holdings + 2 ≤ host.old.left }
    requires orphans { length host.old.kept.holdings ≤ orphans.old.most }
    ensures state { Becomes host.old host.new (starting process ok) }
    ensures left { Spends host.old host.new (length host.old.kept.holdings + 2) 0 }
    ensures run { SameRun host.old host.new }
    ensures orphans { orphans.new.most ≡ orphans.old.most }
{
    let child = host.child(process).copied();
    host.hear_start(process, ok);
    match child {
        Some(child) => answer_start(host, orphans, process, ok, &child),
        None => {}
    }
}
