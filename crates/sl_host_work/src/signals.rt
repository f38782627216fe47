//! Signals to holders: a process whose kill program is set has it started in place of a term.

ghost use Rattle.sl_host_law.specs.StepParts.Signals.{sending, telling};
ghost use Rattle.sl_host_work.specs.Holders.{SameButSignals, holders_under, signalling_all};
ghost use Rattle.sl_host.specs.Host.{Becomes, SameRun, Spends};
ghost use Rattle.std.specs.Prelude.{length, ◌-◌, ◌<◌, ◌≡◌, ◌≤◌};

use sl_host::Host;
use sl_trace::{Sent, Signal, Start};

/// A process is told to stop: by its kill program, as a child, or else by a term.
pub fn tell(host: &mut Host, process: u32)
    requires { 0 < host.old.left }
    ensures state { Becomes host.old host.new (telling process) }
    ensures left { (host.new.left ≡ host.old.left - 1) × (host.new.calls ≡ host.old.calls) }
    ensures run { SameRun host.old host.new }
{
    match host.books().stopper(process) {
        Some(program) => {
            let child = host.next_child();
            host.start(Start {
                process: child,
                program,
                job: None,
                stands_for: Some(process),
            });
        }
        None => host.signal(Sent {
            process,
            signal: Signal::Term,
        }),
    }
}

/// A process is sent this signal, or told to stop.
pub fn send(host: &mut Host, process: u32, signal: Signal)
    requires { 0 < host.old.left }
    ensures state { Becomes host.old host.new (sending process signal) }
    ensures left { (host.new.left ≡ host.old.left - 1) × (host.new.calls ≡ host.old.calls) }
    ensures run { SameRun host.old host.new }
    ensures stays { SameButSignals host.old host.new }
{
    match signal {
        Signal::Term => tell(host, process),
        Signal::Kill => host.signal(Sent { process, signal }),
    }
}

/// Each process that holds under a session is sent this signal, in rising order, once.
pub fn signal_holders(host: &mut Host, session: u64, signal: Signal)
    requires { length (holders_under session host.old.kept.holdings) ≤ host.old.left }
    ensures state { Becomes host.old host.new (signalling_all signal session) }
    ensures left { Spends host.old host.new (length (holders_under session host.old.kept.holdings)) 0 }
    ensures run { SameRun host.old host.new }
    ensures stays { SameButSignals host.old host.new }
{
    let mut last = 0;
    while let Some(process) = host.holder_above(session, last) {
        send(host, process, signal);
        last = process;
    }
}
