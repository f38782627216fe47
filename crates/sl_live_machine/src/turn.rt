//! A turn that gives an input, and what came of it.

ghost use Rattle.sl_live.specs.Turns.{ChildrenState, GivesUp, MakesTurn};
ghost use Rattle.sl_live_machine.specs.ThreadTurns.{OnChildren, happened_of};
ghost use Rattle.sl_world_state.specs.Daemons.{read_of};
ghost use Rattle.std.specs.Prelude.{IfOk, IfSome, OnErr, ℕ, ◌≡◌};

use crate::room::Room;
use sl_cell::{Seat, Station, Teller};
use sl_outside::Spawner;
use sl_sector::Images;
use sl_time::Clock;
use sl_trace::{Effects, Input};
use std::alloc::AllocError;
use std::sync::Wait;

/// What was given in a turn: the kind of its input.
#[derive(Clone, Copy)]
pub(crate) enum Happened {
    Woke,
    Line,
    Answered,
    Started { process: u32, ok: bool },
    Exited { process: u32 },
}

impl Happened {
    /// The kind of an input.
    pub(crate) fn of(input: &Input) -> Happened
        ensures { result ≡ happened_of input.now }
    {
        match input {
            Input::Wake => Happened::Woke,
            Input::Line(_) => Happened::Line,
            Input::Number(_) => Happened::Line,
            Input::Answer { .. } => Happened::Answered,
            Input::Spawned { process, ok } => Happened::Started {
                process: *process,
                ok: *ok,
            },
            Input::Exit { process } => Happened::Exited { process: *process },
        }
    }
}

/// A turn: what was given, and the effects of its step, if it was one that was expected.
#[derive(Drop)]
pub(crate) struct Turn {
    pub happened: Happened,
    pub effects: Option<Effects>,
}

/// Gives an input with all that follows of it, on the children that stand under their lock. The sectors of a read may be given beside its answer. An
/// `Err` is want of memory.
pub(crate) fn give<D: Teller, J: Station, R: Wait, C: Clock, P: Spawner>(
    rt: &R,
    room: &Room<D, J, P>,
    seat: &mut Seat<J>,
    clock: &mut C,
    input: Input,
    sectors: Option<&Images>,
) -> Result<Turn, AllocError>
    requires { IfSome sectors (λ i. (call : ℕ) × (input ≡ read_of call i.now)) }
    ensures happened { IfOk result (λ t. t.happened ≡ happened_of input) }
    ensures made { IfOk result (λ t. OnChildren (λ before after.
        MakesTurn P.acts P.faults P.running J.setting (C.last clock.new) t.effects input before after seat.old seat.new)) }
    ensures err { OnErr result (OnChildren (λ before after. GivesUp {C = ChildrenState P} (C.last clock.new) input before after seat.old seat.new)) }
{
    let happened = Happened::of(&input);
    let mut children = room.children.lock(rt);
    let effects = children.give(rt, &room.cell, seat, clock, input, sectors)?;
    Ok(Turn { happened, effects })
}
