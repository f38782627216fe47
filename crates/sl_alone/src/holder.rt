//! A process that holds, with the last signal that it was given.

ghost use Rattle.sl_alone.specs.DueSignals as due;
ghost use Rattle.std.specs.Prelude.{None, map, not, ◌==◌, ◌≡◌};

use sl_trace::{Sent, Signal};

/// A process that holds, with the last signal that it was given.
#[derive(Clone, Copy)]
pub struct Holder {
    pub process: u32,
    pub last: Option<Signal>,
}

/// A holder that was given no signal.
pub fn untold(process: u32) -> Holder
    ensures { result ≡ record { process = process; last = None } }
{
    Holder {
        process,
        last: None,
    }
}

/// Whether it was given no signal.
fn is_untold(holder: &Holder) -> bool
    ensures { result ≡ due.is_untold holder.now }
{
    holder.last.is_none()
}

/// Whether it was given term, and kill not yet.
fn is_told_term(holder: &Holder) -> bool
    ensures { result ≡ due.is_told_term holder.now }
{
    matches!(holder.last, Some(Signal::Term))
}

/// Term to the first that was given no signal.
fn term_among(holders: &[Holder]) -> Option<Sent>
    ensures { result ≡ due.term_among holders.now }
{
    let holder = holders.iter().find(|holder| is_untold(holder))?;
    Some(Sent {
        process: holder.process,
        signal: Signal::Term,
    })
}

/// Kill to the first that was given term alone.
fn kill_among(holders: &[Holder]) -> Option<Sent>
    ensures { result ≡ due.kill_among holders.now }
{
    let holder = holders.iter().find(|holder| is_told_term(holder))?;
    Some(Sent {
        process: holder.process,
        signal: Signal::Kill,
    })
}

/// The signal that is due: term as long as one was given none, then, once the grace is over, kill.
pub fn due_among(holders: &[Holder], is_grace_over: bool) -> Option<Sent>
    ensures { result ≡ due.due_among is_grace_over holders.now }
{
    match term_among(holders) {
        Some(term) => Some(term),
        None => {
            if is_grace_over {
                kill_among(holders)
            } else {
                None
            }
        }
    }
}

/// The holder after a signal to some process.
fn noted(holder: Holder, sent: Sent) -> Holder
    ensures { result ≡ due.noted sent holder }
{
    if sent.process == holder.process {
        Holder {
            process: holder.process,
            last: Some(sent.signal),
        }
    } else {
        holder
    }
}

/// Notes at the holder of this process what it was sent; at no other.
pub fn note(holders: &mut [Holder], sent: Sent)
    ensures { holders.new ≡ map (due.noted sent) holders.old }
{
    for holder in holders.iter_mut() {
        *holder = noted(*holder, sent);
    }
}

/// Whether the holder is of another process than this.
pub fn is_other(holder: &Holder, process: u32) -> bool
    ensures { result ≡ not (holder.now.process == process) }
{
    holder.process != process
}
