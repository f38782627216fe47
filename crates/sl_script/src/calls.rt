//! Calls that a step makes, numbered on as they come.

ghost use Rattle.sl_world_state.specs.Daemons.{IsSoundCall, IsSoundOp};
ghost use Rattle.sl_run.specs.Refusals.{sectors_of};
ghost use Rattle.sl_script.specs.MadeSteps.{AreCalls};
ghost use Rattle.std.specs.Prelude.{IfSome, [], ◌<◌, ◌^◌, ◌≡◌};

use crate::draft::MOST;
use sl_sector::{Block, DeltaRec, DeltaState, Leader, PairBlock, Rec, Request, ValueRec};
use sl_text::{Data, FilePath, Name, Seq};
use sl_trace::{Call, JoinStep, LeaseRead, LeaseStep, Op, Purpose, Work};
use std::alloc::{AllocError, Global};
use std::marker::Model;

/// Calls at whole sectors of this size, of which the first has this number.
#[derive(Drop)]
pub struct NewCalls {
    next: u64,
    sector: u32,
    items: Vec<Call>,
}

impl Model for NewCalls {
    ghost use Rattle.sl_script.specs.MadeSteps.{AreCalls, CallsState};

    ghost Value = { CallsState };

    ghost view = { λ c. record { next = c.next; sector = c.sector; items = c.items.items } };

    ghost invariant = { λ c. AreCalls c.next c.sector c.items.items };
}

/// How many sectors the op is about.
fn sectors_of(op: &Op) -> u32
    ensures { result ≡ sectors_of op.now }
{
    match op {
        Op::ReadSectors { sectors } => *sectors,
        Op::WriteRecord { .. } => 1,
    }
}

/// The call of this number, if it is at whole sectors of this size, and some.
fn call_of(number: u64, path: FilePath, offset: u64, op: Op, sector: u32) -> Option<Call>
    requires { IsSoundOp op }
    ensures numbered { IfSome result (λ c. c.number ≡ number) }
    ensures sound { IfSome result (IsSoundCall sector) }
{
    if sector > 0 && offset % (sector as u64) == 0 && sectors_of(&op) > 0 {
        Some(Call {
            number,
            session: 0,
            purpose: Purpose::Survey,
            path,
            offset,
            op,
        })
    } else {
        None
    }
}

/// The types within a call. A body that carries a call over another one names them all (`_within`, which is nothing): the borrow check
/// refuses it where one is not named there, with a message that calls itself a fault.
type WithinCall = (
    (Purpose, Work, LeaseStep, LeaseRead, JoinStep),
    (
        Rec,
        DeltaRec,
        DeltaState,
        Leader,
        Block,
        PairBlock,
        Request,
        ValueRec,
    ),
    (Name, FilePath, Data),
);

impl NewCalls {
    /// No call yet; the first one will have the number `next`, at sectors of so many bytes.
    pub fn new(alloc: Global, next: u64, sector: u32) -> NewCalls
        ensures { result ≡ record { next = next; sector = sector; items = [] } }
    {
        NewCalls {
            next,
            sector,
            items: Vec::new(alloc),
        }
    }

    /// One more, if it has sectors, whole ones, and there is place for it.
    #[tactic(auto, using(crate::proofs::NumberedOn::calls_more))]
    pub fn put(&mut self, path: FilePath, offset: u64, op: Op) -> Result<(), AllocError>
        requires op { IsSoundOp op }
        requires numbers { self.old.next < 2 ^ 63 }
        ensures { (self.new.next ≡ self.old.next) × (self.new.sector ≡ self.old.sector) }
    {
        let _within: Option<WithinCall> = None;
        let place = self.items.len();
        if place < MOST {
            if let Some(call) = call_of(self.next + place as u64, path, offset, op, self.sector) {
                self.items.push(call)?;
            }
        }
        Ok(())
    }

    /// The calls, in the order of their numbers.
    pub fn into_seq(self) -> Seq<Call>
        ensures { AreCalls self.next self.sector result }
    {
        let NewCalls {
            next: _,
            sector: _,
            items,
        } = self;
        Seq::new(items)
    }
}
