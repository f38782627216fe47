//! A step by its input.

ghost use Rattle.sl_world_state.specs.Daemons.{read_of};
ghost use Rattle.sl_host_step.specs.Moments.{HasStepped, StepComes};
ghost use Rattle.sl_host_step.specs.AwaitedCalls.{joins_at};
ghost use Rattle.sl_host_step.specs.SpareRoom.{Rests, takes_more};
ghost use Rattle.std.specs.Prelude.{IfOk, IsOk, OnErr, OnOk, false, true, ◌≡◌};

use crate::answer::{step_answer, step_images};
use crate::line::step_line;
use crate::step::{step_exit, step_number, step_start, step_wake};
use crate::step_memory::Scratch;
use sl_host::Host;
use sl_sector::Images;
use sl_trace::{Effects, Input};
use std::alloc::{AllocError, Global};

/// A step at this input. An `Err` is want of memory, or of numbers of calls, jobs, children or steps, and changes nothing.
pub(crate) fn step_at(
    alloc: Global,
    host: &mut Host,
    scratch: &mut Scratch,
    now: u64,
    input: &Input,
) -> Result<Effects, AllocError>
    requires comes { StepComes now input.now host.old.kept }
    requires rests { Rests scratch.old host.old }
    requires sizes { scratch.old.sizes ≡ host.old.kept.config.sizes }
    ensures ok { IfOk result (λ fx. HasStepped now input.now host.old host.new fx) }
    ensures err { OnErr result (host.new ≡ host.old) }
    ensures rests { OnErr result (Rests scratch.new host.new) }
    ensures used { OnOk result (scratch.new.spare ≡ false) }
    ensures spared { scratch.old.spare ≡ true → takes_more host.old.kept input.now ≡ false → IsOk result }
    ensures sizes { scratch.new.sizes ≡ scratch.old.sizes }
{
    match input {
        Input::Line(text) => step_line(alloc, host, scratch, now, text.as_slice()),
        Input::Number(_) => step_number(alloc, host, scratch, now),
        Input::Answer { call, answer } => step_answer(alloc, host, scratch, now, *call, answer),
        Input::Wake => step_wake(alloc, host, scratch, now),
        Input::Exit { process } => step_exit(alloc, host, scratch, now, *process),
        Input::Spawned { process, ok } => step_start(alloc, host, scratch, now, *process, *ok),
    }
}

/// A step at the answer ok of a read, with its sectors as the world has them. An `Err` is as above.
pub(crate) fn step_read(
    alloc: Global,
    host: &mut Host,
    scratch: &mut Scratch,
    now: u64,
    call: u64,
    sectors: &Images,
) -> Result<Effects, AllocError>
    requires comes { StepComes now (read_of call sectors.now) host.old.kept }
    requires rests { Rests scratch.old host.old }
    requires sizes { scratch.old.sizes ≡ host.old.kept.config.sizes }
    ensures ok { IfOk result (λ fx. HasStepped now (read_of call sectors.now) host.old host.new fx) }
    ensures err { OnErr result (host.new ≡ host.old) }
    ensures rests { OnErr result (Rests scratch.new host.new) }
    ensures used { OnOk result (scratch.new.spare ≡ false) }
    ensures spared { scratch.old.spare ≡ true → sectors.now.size ≡ host.old.kept.config.sizes.sector → joins_at host.old.kept call ≡ false → IsOk result }
    ensures sizes { scratch.new.sizes ≡ scratch.old.sizes }
{
    step_images(alloc, host, scratch, now, call, sectors)
}
