//! A recovery: who still holds, and what each was told.
//!
//! It begins once, with the processes that hold then. A holder is untold, told term or told kill, in this order; its exit takes it out,
//! whatever it was told. As long as one is untold, a step gives term. Where none is, and the reading is at least the grace above that
//! of the beginning, a step gives kill to one that was told term. Else nothing is due.
//!
//! Three things are kept, and each is what the calls so far make it (`Stands`):
//!
//! - The reading of the beginning. Were it moved, kills would come before their time, or never.
//! - The holders that are left, in the order in which they were given. One too many would be signalled after its exit, when its number
//!   may be another process's; one too few would never be told.
//! - Beside each the last signal that it was given. Were it lost, a signal would be given again; were one noted that was not given, its
//!   process would go on under a lease that is lost.

ghost use Rattle.sl_alone.specs.Calls.{Began, EscalateCall, Exited, Stepped, holders_left};
ghost use Rattle.sl_alone.specs.DueSignals as due;
ghost use Rattle.sl_alone.specs.DueSignals.{signal_due};
ghost use Rattle.sl_alone.specs.KeptRecovery.{Stands};
ghost use Rattle.std.specs.Prelude.{IfOk, IsTrue, List, None, OnErr, OnOk, Some, filter, map, not, ◌==◌, [], ℕ, ◌∷◌, ◌≡◌, ◌↔◌};

use crate::holder::{Holder, due_among, is_other, note, untold};
use sl_trace::Sent;
use std::alloc::{AllocError, Global};
use std::marker::Model;

/// The holders of a session that is to end, with what each was told. Readings and the grace are in milliseconds of one clock.
#[derive(Drop)]
pub struct Recovery {
    grace: u64,
    began: Option<u64>,
    holders: Vec<Holder>,
}

impl Model for Recovery {
    ghost use Rattle.sl_alone.specs.KeptRecovery.{Kept};

    ghost Value = { Kept };

    ghost view = { λ r. record { grace = r.grace; began = r.began; holders = r.holders.items } };
}

impl Recovery {
    /// A recovery that has not begun, with this grace. It takes no memory.
    pub fn new(alloc: Global, grace: u64) -> Recovery
        ensures { Stands grace result [] }
    {
        Recovery {
            grace,
            began: None,
            holders: Vec::new(alloc),
        }
    }

    /// Begins at this reading with these holders, none of which was told anything; it comes once. A process that is given twice is one
    /// holder to every signal. The only error is want of memory, and then nothing has changed.
    #[tactic(auto, using(crate::proofs::KeptLaws::told_begun))]
    pub fn begin(&mut self, now: u64, holders: &[u32]) -> Result<(), AllocError>
        requires { self.old.began ≡ None }
        ensures ok { OnOk result ((grace : ℕ) (calls : List EscalateCall) → Stands grace self.old calls
            → Stands grace self.new (Began now holders.now ∷ calls)) }
        ensures began { OnOk result (self.new.began ≡ Some now) }
        ensures err { OnErr result (self.new ≡ self.old) }
    {
        self.holders = all_untold(*self.holders.allocator(), holders)?;
        self.began = Some(now);
        Ok(())
    }

    /// The signal that is due at this reading, if there is one: it counts as given. Further ones may be due at the same reading, so a
    /// caller steps until there is none. It takes no memory.
    #[tactic(auto, using(crate::proofs::KeptLaws::stands_noted, crate::proofs::KeptLaws::stands_quiet))]
    pub fn step(&mut self, now: u64) -> Option<Sent>
        ensures exact { (grace : ℕ) (calls : List EscalateCall) → Stands grace self.old calls → result ≡ signal_due grace calls now }
        ensures stands { (grace : ℕ) (calls : List EscalateCall) → Stands grace self.old calls → Stands grace self.new (Stepped now ∷ calls) }
        ensures beginning { self.new.began ≡ self.old.began }
    {
        let sent = due_among(&self.holders, is_grace_over(self.grace, self.began, now))?;
        note(&mut self.holders, sent);
        Some(sent)
    }

    /// Notes that the process has exited: it is no holder any more, and is given no further signal. It takes no memory.
    #[tactic(auto, using(crate::proofs::KeptLaws::told_exited))]
    pub fn exited(&mut self, process: u32)
        ensures stands { (grace : ℕ) (calls : List EscalateCall) → Stands grace self.old calls → Stands grace self.new (Exited process ∷ calls) }
        ensures beginning { self.new.began ≡ self.old.began }
    {
        keep_others(&mut self.holders, process);
    }

    /// Whether no holder is left, so that the session may end.
    pub fn clear(&self) -> bool
        ensures { (grace : ℕ) (calls : List EscalateCall) → Stands grace self.now calls → IsTrue result ↔ (holders_left calls ≡ []) }
    {
        self.holders.is_empty()
    }
}

/// The holders, none of which was given a signal.
fn all_untold(alloc: Global, processes: &[u32]) -> Result<Vec<Holder>, AllocError>
    ensures { IfOk result (λ hs. hs.items ≡ map (λ process. record { process = process; last = None }) processes.now) }
{
    processes
        .iter()
        .map(|process| untold(*process))
        .collect(alloc)
}

/// Takes the process out.
fn keep_others(holders: &mut Vec<Holder>, process: u32)
    ensures { holders.new.items ≡ filter (λ holder. not (holder.process == process)) holders.old.items }
{
    holders.retain(|holder| is_other(holder, process));
}

/// Whether the reading is at least the grace above that of the beginning.
fn is_grace_over(grace: u64, began: Option<u64>, now: u64) -> bool
    ensures { result ≡ due.is_grace_over grace began now }
{
    match began {
        Some(began) => now >= began && now - began >= grace,
        None => false,
    }
}
