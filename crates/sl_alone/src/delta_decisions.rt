//! What a decision makes of a delta lease: a call, a move of its connection, an outcome.

ghost use Rattle.sl_delta.specs.DeltaDecisions.{IsFitNext};
ghost use Rattle.sl_delta.specs.OwnSector.{IsOwnRecord};
ghost use Rattle.sl_alone.specs.DeltaSteps.{call_in, called_with, carried, given_by, last_after, move_in, outcome_in, purpose_of, record_in_call, registered_after, standing_after};
ghost use Rattle.sl_alone.specs.declared.delta_lease.Standing.TheVariants.{Holds};
ghost use Rattle.sl_trace.specs.declared.effects.Move.TheVariants.{Unregister};
ghost use Rattle.sl_trace.specs.declared.effects.Purpose.TheVariants.{Survey};
ghost use Rattle.sl_words.specs.Words.{choose};
ghost use Rattle.sl_words.specs.Bounds.{moments};
ghost use Rattle.std.specs.Option.{option_copied};
ghost use Rattle.std.specs.Prelude.{IfSome, false, ◌+◌, ◌<◌, ◌≡◌, ◌≤◌};

use crate::delta_lease::{DeltaLease, OpenDelta, Standing};
use crate::delta_steps::{DeltaCall, DeltaOut, Outcome};
use sl_sector::DeltaRec;
use sl_trace::{DeltaNext, JoinStep, Move, Purpose};

/// What the call is for, as the definitions name it; the job is 0, since a lease knows no job.
pub(crate) fn purpose_of(call: &DeltaCall) -> Purpose
    ensures { result ≡ purpose_of call.now }
{
    match call {
        DeltaCall::ReadOwn(step) => Purpose::Joining {
            job: 0,
            step: *step,
        },
        DeltaCall::WriteOwn { step, record: _ } => Purpose::Joining {
            job: 0,
            step: *step,
        },
        DeltaCall::RenewOwn(_) => Purpose::Renewal,
        DeltaCall::ReadAll => Purpose::Survey,
        DeltaCall::FreeOwn(_) => Purpose::Leaving { job: 0 },
    }
}

/// The delta record that the call writes; none of a read.
pub(crate) fn record_in(call: &DeltaCall) -> Option<&DeltaRec>
    ensures { option_copied result ≡ record_in_call call.now }
{
    match call {
        DeltaCall::ReadOwn(_) => None,
        DeltaCall::WriteOwn { step: _, record } => Some(record),
        DeltaCall::RenewOwn(record) => Some(record),
        DeltaCall::ReadAll => None,
        DeltaCall::FreeOwn(record) => Some(record),
    }
}

/// The one call that a decision makes, if it makes any.
pub(crate) fn call_in(next: &DeltaNext) -> Option<DeltaCall>
    ensures exact { result ≡ call_in next.now }
    ensures fit { IsFitNext next.now → IfSome result (λ c. IfSome (record_in_call c) IsOwnRecord) }
{
    match next {
        DeltaNext::Nothing => None,
        DeltaNext::RefuseJoin(_) => None,
        DeltaNext::ReadOwn(step) => Some(DeltaCall::ReadOwn(*step)),
        DeltaNext::RegisterAndRead(step) => Some(DeltaCall::ReadOwn(*step)),
        DeltaNext::WriteClaim(record) => Some(DeltaCall::WriteOwn {
            step: JoinStep::ClaimWrite,
            record: *record,
        }),
        DeltaNext::Disconnect => None,
        DeltaNext::WriteFirst(record) => Some(DeltaCall::WriteOwn {
            step: JoinStep::FirstRenewal,
            record: *record,
        }),
        DeltaNext::Join {
            generation: _,
            renewed: _,
        } => Some(DeltaCall::ReadAll),
        DeltaNext::MoveConnection { renewed: _ } => Some(DeltaCall::ReadAll),
        DeltaNext::WriteRenewal(record) => Some(DeltaCall::RenewOwn(*record)),
        DeltaNext::WriteFree { job: _, record } => Some(DeltaCall::FreeOwn(*record)),
        DeltaNext::EndLeaving { job: _, reply: _ } => None,
    }
}

/// What a decision ends: a joining, well or not, or a leaving.
pub(crate) fn outcome_in(next: DeltaNext) -> Option<Outcome>
    ensures { result ≡ outcome_in next }
{
    match next {
        DeltaNext::RefuseJoin(reply) => Some(Outcome::NotJoined(reply)),
        DeltaNext::Join {
            generation,
            renewed: _,
        } => Some(Outcome::Joined { generation }),
        DeltaNext::EndLeaving { job: _, reply } => Some(Outcome::Left(reply)),
        _ => None,
    }
}

/// How a session, whose last record has this generation, stands after a decision.
pub(crate) fn standing_after(generation: u64, next: &DeltaNext, before: Standing) -> Standing
    ensures exact { result ≡ standing_after generation next.now before }
    ensures named { (before ≡ Holds → 1 ≤ generation) → result ≡ Holds → 1 ≤ generation }
{
    match next {
        DeltaNext::RefuseJoin(_) => Standing::Declined,
        DeltaNext::Join {
            generation: _,
            renewed: _,
        } => {
            if 0 < generation {
                Standing::Holds
            } else {
                before
            }
        }
        DeltaNext::EndLeaving { job: _, reply: _ } => Standing::Gone,
        _ => before,
    }
}

/// The submission reading of the last renewal that was answered ok, after this decision.
pub(crate) fn last_after(next: &DeltaNext, before: u64) -> u64
    ensures exact { result ≡ last_after next.now before }
    ensures bounds { before < moments → IsFitNext next.now → result < moments }
{
    match next {
        DeltaNext::Join {
            generation: _,
            renewed,
        } => *renewed,
        DeltaNext::MoveConnection { renewed } => *renewed,
        _ => before,
    }
}

/// Whether the connection stands after a decision.
pub(crate) fn registered_after(next: &DeltaNext, before: bool) -> bool
    ensures { result ≡ registered_after next.now before }
{
    match next {
        DeltaNext::RefuseJoin(_) => false,
        DeltaNext::RegisterAndRead(_) => true,
        DeltaNext::Disconnect => false,
        DeltaNext::Join {
            generation: _,
            renewed: _,
        } => true,
        DeltaNext::EndLeaving { job: _, reply: _ } => false,
        _ => before,
    }
}

impl DeltaLease {
    /// The move of its connection by a decision.
    pub(crate) fn move_in(&self, now: u64, next: &DeltaNext) -> Option<Move>
        requires moment { now < moments }
        requires renewed { IsFitNext next.now }
        ensures { result ≡ move_in now self.now next.now }
    {
        match next {
            DeltaNext::RefuseJoin(_) => self.unregistering(),
            DeltaNext::RegisterAndRead(_) => Some(Move::Register {
                lockspace: self.own.lockspace,
                expiry: now + self.own.timing.fail(),
            }),
            DeltaNext::Disconnect => Some(Move::Unregister {
                lockspace: self.own.lockspace,
            }),
            DeltaNext::Join {
                generation: _,
                renewed,
            } => Some(Move::Renew {
                lockspace: self.own.lockspace,
                expiry: *renewed + self.own.timing.fail(),
            }),
            DeltaNext::MoveConnection { renewed } => Some(Move::Renew {
                lockspace: self.own.lockspace,
                expiry: *renewed + self.own.timing.fail(),
            }),
            DeltaNext::EndLeaving { job: _, reply: _ } => Some(Move::Unregister {
                lockspace: self.own.lockspace,
            }),
            _ => None,
        }
    }

    /// The removal of its connection, if that stands.
    pub(crate) fn unregistering(&self) -> Option<Move>
        ensures { result ≡ choose self.now.registered (Unregister self.now.own.lockspace) }
    {
        if self.registered {
            Some(Move::Unregister {
                lockspace: self.own.lockspace,
            })
        } else {
            None
        }
    }

    /// A call is submitted at this reading, and waits for its answer.
    pub(crate) fn call(&mut self, now: u64, call: &Option<DeltaCall>)
        requires moment { now < moments }
        requires fit { IfSome call.now (λ c. IfSome (record_in_call c) IsOwnRecord) }
        ensures { self.new ≡ called_with now call.now self.old }
    {
        if let Some(call) = call {
            let purpose = purpose_of(call);
            self.own.called(now, &purpose, record_in(call));
            self.waits = Some(OpenDelta { purpose, made: now });
        }
    }

    /// A decision is done: this is what it gives.
    pub(crate) fn carry(&mut self, now: u64, next: DeltaNext) -> DeltaOut
        requires moment { now < moments }
        requires fit { IsFitNext next }
        ensures state { self.new ≡ carried now next self.old }
        ensures out { result ≡ given_by now next self.old }
    {
        let moved = self.move_in(now, &next);
        let call = call_in(&next);
        self.standing = standing_after(self.own.generation, &next, self.standing);
        self.last = last_after(&next, self.last);
        self.registered = registered_after(&next, self.registered);
        self.call(now, &call);
        DeltaOut {
            recovers: false,
            moved,
            call,
            outcome: outcome_in(next),
        }
    }
}
