//! The whole step of a host: its memory is taken, then what is due before its input is done, what the input makes due, what a wake does, and what comes
//! last.
//!
//! The memory is taken first: an `Err` has changed nothing, and behind it nothing can fail. It is that of a step that reaches all, where something
//! may be due by time, else of one with the reach of its input. The states that a step comes to are `AtInput`, `AtEnd` and `AllDone` of
//! specs/Moments.antt; what each part asks of its host is known there, by the laws of a host's step.

ghost use Rattle.sl_host_state.specs.KeptState.{HostKept};
ghost use Rattle.sl_host_step.specs.Moments.{AllDone, AtEnd, AtInput, HasStepped, IsCalmed, IsOver, StepComes};
ghost use Rattle.sl_host_step.specs.StepMemory.{EndsWith, HasLeft, HasRoom, IsFarEnough, Suffices};
ghost use Rattle.sl_host_step.specs.declared.step_memory.Reach.TheVariants.{All, Few};
ghost use Rattle.sl_host_step.specs.declared.step_memory.Reach.{Reach as ReachOf};
ghost use Rattle.sl_host_step.specs.SpareRoom.{Rests};
ghost use Rattle.sl_host_step.specs.HostServes.{IsIdle};
ghost use Rattle.sl_trace.specs.declared.input.Input.TheVariants.{Exit as ExitOf, Number as NumberOf, Spawned as SpawnedOf, Wake as WakeOf};
ghost use Rattle.sl_trace.specs.declared.input.Input.{Input as InputOf};
ghost use Rattle.sl_host.specs.Books.{AreFew};
ghost use Rattle.sl_host.specs.Host.{HostView, SameRun};
ghost use Rattle.std.specs.Prelude.{IfOk, IsOk, List, OnErr, OnOk, false, nat_le, true, ℕ, ◌<◌, ◌≡◌, ◌≤◌};

use crate::step_memory::{Reach, Scratch, room};
use sl_host::Host;
use sl_host_passes::{begin_step, calm, exit, finish, spawned, wake};
use sl_trace::Effects;
use std::alloc::{AllocError, Global};

/// The step comes to its input.
#[tactic(auto, using(crate::proofs::KnownPasses::begin_known, crate::proofs::MomentsFollow::begins))]
fn begin(host: &mut Host, scratch: &mut Scratch, now: u64)
    requires comes { (i : InputOf) × StepComes now i host.old.kept }
    requires room { (r : ReachOf) × (first : HostView) × HasRoom r first host.old × IsFarEnough now host.old.kept r }
    requires lists { Suffices scratch.old host.old }
    ensures at { (i : InputOf) → StepComes now i host.old.kept → AtInput now i host.old.kept host.new.kept }
    ensures left { (r : ReachOf) (first : HostView) → HasRoom r first host.old → IsFarEnough now host.old.kept r → HasLeft r first host.new }
    ensures lists { Suffices scratch.new host.new }
    ensures sizes { scratch.new.sizes ≡ scratch.old.sizes }
    ensures spare { scratch.new.spare ≡ scratch.old.spare }
{
    host.seats();
    begin_step(host, &mut scratch.members, &mut scratch.jobs, now);
    host.calls_left();
}

/// A wake: what is due by time to each session.
#[tactic(auto, using(crate::proofs::KnownPasses::wake_known, crate::proofs::StepsMayCome::moment_at_input, crate::proofs::MomentsFollow::wake_ends))]
fn take_wake(host: &mut Host, scratch: &mut Scratch)
    requires at { (now : ℕ) × (first : HostKept) × AtInput now WakeOf first host.old.kept }
    requires left { (first : HostView) × HasLeft All first host.old }
    requires lists { Suffices scratch.old host.old }
    ensures at { (now : ℕ) (first : HostKept) → AtInput now WakeOf first host.old.kept → AtEnd now WakeOf first host.new.kept }
    ensures left { (first : HostView) → HasLeft All first host.old → EndsWith first host.new }
    ensures lists { host.new.seats ≤ scratch.new.members }
    ensures sizes { scratch.new.sizes ≡ scratch.old.sizes }
    ensures spare { scratch.new.spare ≡ scratch.old.spare }
{
    host.seats();
    wake(host, &mut scratch.members, &mut scratch.spots);
}

/// A process has exited.
#[tactic(auto, using(crate::proofs::KnownPasses::holds_once, crate::proofs::StepsMayCome::moment_at_input, crate::proofs::MomentsFollow::exit_ends))]
fn take_exit(host: &mut Host, scratch: &mut Scratch, process: u32)
    requires at { (now : ℕ) × (first : HostKept) × AtInput now (ExitOf process) first host.old.kept }
    requires left { (first : HostView) × HasLeft All first host.old }
    requires lists { Suffices scratch.old host.old }
    ensures at { (now : ℕ) (first : HostKept) → AtInput now (ExitOf process) first host.old.kept → AtEnd now (ExitOf process) first host.new.kept }
    ensures left { (first : HostView) → HasLeft All first host.old → EndsWith first host.new }
    ensures lists { host.new.seats ≤ scratch.new.members }
    ensures sizes { scratch.new.sizes ≡ scratch.old.sizes }
    ensures spare { scratch.new.spare ≡ scratch.old.spare }
{
    exit(host, &mut scratch.orphans, &mut scratch.jobs, process);
}

/// The start of a child is answered.
#[tactic(auto, using(crate::proofs::KnownPasses::holds_once, crate::proofs::KnownPasses::starts_some, crate::proofs::StepsMayCome::moment_at_input, crate::proofs::MomentsFollow::start_ends))]
fn take_start(host: &mut Host, scratch: &mut Scratch, process: u32, ok: bool)
    requires at { (now : ℕ) × (first : HostKept) × AtInput now (SpawnedOf process ok) first host.old.kept }
    requires left { (first : HostView) × HasLeft All first host.old }
    requires lists { Suffices scratch.old host.old }
    ensures at { (now : ℕ) (first : HostKept) → AtInput now (SpawnedOf process ok) first host.old.kept → AtEnd now (SpawnedOf process ok) first host.new.kept }
    ensures left { (first : HostView) → HasLeft All first host.old → EndsWith first host.new }
    ensures lists { host.new.seats ≤ scratch.new.members }
    ensures sizes { scratch.new.sizes ≡ scratch.old.sizes }
    ensures spare { scratch.new.spare ≡ scratch.old.spare }
{
    spawned(host, &mut scratch.orphans, process, ok);
}

/// A line takes a number alone.
#[tactic(auto, using(crate::proofs::MomentsFollow::number_ends))]
fn take_number(host: &mut Host)
    requires at { (now : ℕ) × (text : List ℕ) × (first : HostKept) × AtInput now (NumberOf text) first host.old.kept }
    requires left { (first : HostView) × HasLeft Few first host.old }
    ensures at { (now : ℕ) (text : List ℕ) (first : HostKept) → AtInput now (NumberOf text) first host.old.kept → AtEnd now (NumberOf text) first host.new.kept }
    ensures left { (first : HostView) → HasLeft Few first host.old → EndsWith first host.new }
{
    host.number_line();
}

/// What comes last of each session.
#[tactic(auto, using(crate::proofs::KnownPasses::finish_known, crate::proofs::StepsMayCome::moment_at_end, crate::proofs::MomentsFollow::finish_ends))]
fn end(host: &mut Host, scratch: &mut Scratch)
    requires at { (now : ℕ) × (i : InputOf) × (first : HostKept) × AtEnd now i first host.old.kept }
    requires left { (first : HostView) × EndsWith first host.old }
    requires lists { host.old.seats ≤ scratch.old.members }
    ensures done { (now : ℕ) (i : InputOf) (first : HostKept) → AtEnd now i first host.old.kept → AllDone now i first host.new.kept }
    ensures most { (host.new.most ≡ host.old.most) × (host.new.most_calls ≡ host.old.most_calls) × (host.new.seats ≡ host.old.seats) }
    ensures sizes { scratch.new.sizes ≡ scratch.old.sizes }
    ensures spare { scratch.new.spare ≡ scratch.old.spare }
{
    host.seats();
    finish(host, &mut scratch.members);
}

/// Where something was due by time, it is worked out anew how long nothing is.
#[tactic(auto, using(crate::proofs::KnownPasses::jobs_apart, crate::proofs::StepsMayCome::moment_when_done, crate::proofs::MomentsFollow::stays_calm, crate::proofs::MomentsFollow::grows_calm))]
fn grow_calm(host: &mut Host, scratch: &mut Scratch, is_loud: bool)
    requires done { (now : ℕ) × (i : InputOf) × (first : HostKept) × AllDone now i first host.old.kept }
    ensures calm { IsCalmed host.old.kept host.new.kept }
    ensures run { SameRun host.old host.new }
    ensures sizes { scratch.new.sizes ≡ scratch.old.sizes }
    ensures spare { scratch.new.spare ≡ scratch.old.spare }
{
    if is_loud && host.job_count() <= scratch.job_room() {
        calm(host, &mut scratch.jobs);
    }
}

/// The effects are taken out.
#[tactic(auto, using(crate::proofs::MomentsFollow::rests))]
fn rest(alloc: Global, host: &mut Host, scratch: &mut Scratch) -> Effects
    requires done { (now : ℕ) × (i : InputOf) × (first : HostKept) × (k : HostKept) × AllDone now i first k × IsCalmed k host.old.kept }
    ensures over { (now : ℕ) (i : InputOf) (first k : HostKept) → AllDone now i first k → IsCalmed k host.old.kept → IsOver now i first host.new.kept result }
    ensures few { AreFew host.old.most host.old.most_calls result }
    ensures idle { IsIdle host.new }
    ensures seats { host.new.seats ≡ host.old.seats }
    ensures lists { scratch.new ≡ scratch.old }
{
    host.rest(alloc, &mut scratch.none)
}

/// What comes behind an input, to the step's end.
pub(crate) fn conclude(
    alloc: Global,
    host: &mut Host,
    scratch: &mut Scratch,
    is_loud: bool,
) -> Effects
    requires at { (now : ℕ) × (i : InputOf) × (first : HostKept) × AtEnd now i first host.old.kept }
    requires left { (first : HostView) × EndsWith first host.old }
    requires lists { host.old.seats ≤ scratch.old.members }
    ensures stepped { (now : ℕ) (i : InputOf) (first : HostView) → AtEnd now i first.kept host.old.kept → EndsWith first host.old → HasStepped now i first host.new result }
    ensures sizes { scratch.new.sizes ≡ scratch.old.sizes }
    ensures spare { scratch.new.spare ≡ scratch.old.spare }
{
    end(host, scratch);
    grow_calm(host, scratch, is_loud);
    rest(alloc, host, scratch)
}

/// Takes the memory of a step whose input reaches so far, and brings it to its input. It tells whether something may be due by time in the step.
/// An `Err` is want of memory or of numbers, and changes nothing.
pub(crate) fn start(
    alloc: Global,
    host: &mut Host,
    scratch: &mut Scratch,
    now: u64,
    reach: Reach,
) -> Result<bool, AllocError>
    requires comes { (i : InputOf) × StepComes now i host.old.kept }
    requires rests { Rests scratch.old host.old }
    ensures loud { IfOk result (λ is_loud. is_loud ≡ nat_le host.old.kept.quiet_until now) }
    ensures at { (i : InputOf) → StepComes now i host.old.kept → OnOk result (AtInput now i host.old.kept host.new.kept) }
    ensures left { OnOk result (HasLeft reach host.old host.new × Suffices scratch.new host.new) }
    ensures err { OnErr result (host.new ≡ host.old) }
    ensures rests { OnErr result (Rests scratch.new host.new) }
    ensures used { OnOk result (scratch.new.spare ≡ false) }
    ensures spared { scratch.old.spare ≡ true → IsOk result }
    ensures sizes { scratch.new.sizes ≡ scratch.old.sizes }
{
    let is_loud = host.quiet_until() <= now;
    room(alloc, host, scratch, reach.at(is_loud))?;
    begin(host, scratch, now);
    Ok(is_loud)
}

/// A step on a wake, at reading `now`. An `Err` is want of memory or of numbers, and changes nothing.
pub(crate) fn step_wake(
    alloc: Global,
    host: &mut Host,
    scratch: &mut Scratch,
    now: u64,
) -> Result<Effects, AllocError>
    requires comes { StepComes now WakeOf host.old.kept }
    requires rests { Rests scratch.old host.old }
    ensures ok { IfOk result (λ fx. HasStepped now WakeOf host.old host.new fx) }
    ensures err { OnErr result (host.new ≡ host.old) }
    ensures rests { OnErr result (Rests scratch.new host.new) }
    ensures used { OnOk result (scratch.new.spare ≡ false) }
    ensures spared { scratch.old.spare ≡ true → IsOk result }
    ensures sizes { scratch.new.sizes ≡ scratch.old.sizes }
{
    let is_loud = start(alloc, host, scratch, now, Reach::All)?;
    take_wake(host, scratch);
    Ok(conclude(alloc, host, scratch, is_loud))
}

/// A step at the exit of a process. An `Err` is want of memory or of numbers, and changes nothing.
pub(crate) fn step_exit(
    alloc: Global,
    host: &mut Host,
    scratch: &mut Scratch,
    now: u64,
    process: u32,
) -> Result<Effects, AllocError>
    requires comes { StepComes now (ExitOf process) host.old.kept }
    requires rests { Rests scratch.old host.old }
    ensures ok { IfOk result (λ fx. HasStepped now (ExitOf process) host.old host.new fx) }
    ensures err { OnErr result (host.new ≡ host.old) }
    ensures rests { OnErr result (Rests scratch.new host.new) }
    ensures used { OnOk result (scratch.new.spare ≡ false) }
    ensures spared { scratch.old.spare ≡ true → IsOk result }
    ensures sizes { scratch.new.sizes ≡ scratch.old.sizes }
{
    let is_loud = start(alloc, host, scratch, now, Reach::All)?;
    take_exit(host, scratch, process);
    Ok(conclude(alloc, host, scratch, is_loud))
}

/// A step at the answer to a child's start. An `Err` is want of memory or of numbers, and changes nothing.
pub(crate) fn step_start(
    alloc: Global,
    host: &mut Host,
    scratch: &mut Scratch,
    now: u64,
    process: u32,
    ok: bool,
) -> Result<Effects, AllocError>
    requires comes { StepComes now (SpawnedOf process ok) host.old.kept }
    requires rests { Rests scratch.old host.old }
    ensures ok { IfOk result (λ fx. HasStepped now (SpawnedOf process ok) host.old host.new fx) }
    ensures err { OnErr result (host.new ≡ host.old) }
    ensures rests { OnErr result (Rests scratch.new host.new) }
    ensures used { OnOk result (scratch.new.spare ≡ false) }
    ensures spared { scratch.old.spare ≡ true → IsOk result }
    ensures sizes { scratch.new.sizes ≡ scratch.old.sizes }
{
    let is_loud = start(alloc, host, scratch, now, Reach::All)?;
    take_start(host, scratch, process, ok);
    Ok(conclude(alloc, host, scratch, is_loud))
}

/// A line that takes a number alone.
pub(crate) fn step_number(
    alloc: Global,
    host: &mut Host,
    scratch: &mut Scratch,
    now: u64,
) -> Result<Effects, AllocError>
    requires comes { (text : List ℕ) × StepComes now (NumberOf text) host.old.kept }
    requires rests { Rests scratch.old host.old }
    ensures ok { (text : List ℕ) → StepComes now (NumberOf text) host.old.kept → IfOk result (λ fx. HasStepped now (NumberOf text) host.old host.new fx) }
    ensures err { OnErr result (host.new ≡ host.old) }
    ensures rests { OnErr result (Rests scratch.new host.new) }
    ensures used { OnOk result (scratch.new.spare ≡ false) }
    ensures spared { scratch.old.spare ≡ true → IsOk result }
    ensures sizes { scratch.new.sizes ≡ scratch.old.sizes }
{
    let is_loud = start(alloc, host, scratch, now, Reach::Few)?;
    take_number(host);
    Ok(conclude(alloc, host, scratch, is_loud))
}
