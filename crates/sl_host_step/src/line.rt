//! A line of a step: it is read, the memory that its command takes is made, then the step begins and the line is taken. But for one that leaves a
//! lockspace it reaches few things, however much the host holds.

ghost use Rattle.sl_area.specs.AreaSizes.{layout_of};
ghost use Rattle.sl_host_lines.specs.ListMemory.{FitsLists};
ghost use Rattle.sl_host_lines.specs.Seats.{HasSeat};
ghost use Rattle.sl_host_state.specs.KeptState.{HostKept};
ghost use Rattle.sl_host_step.specs.Moments.{AtEnd, AtInput, HasStepped, StepComes};
ghost use Rattle.sl_host_step.specs.InputReach.{reach_of};
ghost use Rattle.sl_host_step.specs.StepMemory.{EndsWith, HasLeft, Suffices};
ghost use Rattle.sl_host_step.specs.declared.step_memory.Reach.TheVariants.{Few};
ghost use Rattle.sl_host_step.specs.JoiningSeats.{HasPlace, MayBeSeated};
ghost use Rattle.sl_host_step.specs.SpareRoom.{Rests};
ghost use Rattle.sl_trace.specs.CommandForms.{command_in, forms};
ghost use Rattle.sl_trace.specs.declared.command.Command.TheVariants.{AddLockspace};
ghost use Rattle.sl_trace.specs.declared.input.Input.TheVariants.{Line as LineOf};
ghost use Rattle.sl_host.specs.Host.{HostView};
ghost use Rattle.std.specs.Prelude.{Err, IfOk, List, Ok, OnErr, OnOk, false, ℕ, ◌≡◌, ◌≤◌};

use crate::step::{conclude, start};
use crate::step_memory::{Reach, Scratch, calls_for};
use sl_command::parse_command;
use sl_host::Host;
use sl_host_lines::{Lists, misread, take_line};
use sl_member::Member;
use sl_trace::{Command, Effects, LockspaceArg};
use std::alloc::{AllocError, Global};

/// A line that says no command is taken.
#[tactic(auto, using(crate::proofs::MomentsFollow::line_ends))]
fn take_misread(host: &mut Host, column: u64)
    requires at { (now : ℕ) × (text : List ℕ) × (first : HostKept) × AtInput now (LineOf text) first host.old.kept }
    requires left { (first : HostView) × HasLeft Few first host.old }
    ensures at { (now : ℕ) (text : List ℕ) (first : HostKept) → command_in (forms (layout_of first.config.sizes)) text ≡ Err column → AtInput now (LineOf text) first host.old.kept
        → AtEnd now (LineOf text) first host.new.kept }
    ensures left { (first : HostView) → HasLeft Few first host.old → EndsWith first host.new }
{
    misread(host, column);
}

/// How far a command reaches.
fn reach_of(command: &Command) -> Reach
    ensures { result ≡ reach_of command.now }
{
    match command {
        Command::RemLockspace(_) => Reach::All,
        _ => Reach::Few,
    }
}

/// A command that was read is taken.
#[tactic(auto, using(crate::proofs::MomentsFollow::line_ends, crate::proofs::LinePremises::line_known_at))]
fn take_command(
    host: &mut Host,
    scratch: &mut Scratch,
    seat: &mut Option<Member>,
    lists: Lists,
    command: &Command,
)
    requires at { (now : ℕ) × (text : List ℕ) × (first : HostKept) × (command_in (forms (layout_of first.config.sizes)) text ≡ Ok command.now) × AtInput now (LineOf text) first host.old.kept }
    requires left { (first : HostView) × HasLeft (reach_of command.now) first host.old }
    requires scratch { Suffices scratch.old host.old }
    requires lists { FitsLists host.old.kept.config.sizes host.old.seats command.now lists }
    requires seat { HasSeat host.old command.now seat.old }
    ensures at { (now : ℕ) (text : List ℕ) (first : HostKept) → command_in (forms (layout_of first.config.sizes)) text ≡ Ok command.now → AtInput now (LineOf text) first host.old.kept
        → AtEnd now (LineOf text) first host.new.kept }
    ensures left { (first : HostView) → HasLeft (reach_of command.now) first host.old → EndsWith first host.new }
    ensures lists { host.new.seats ≤ scratch.new.members }
    ensures sizes { scratch.new.sizes ≡ scratch.old.sizes }
    ensures spare { scratch.new.spare ≡ scratch.old.spare }
{
    take_line(host, &mut scratch.jobs, seat, lists, command);
}

/// The member that joins by these words takes its place, with memory for as many leases as the step may make calls. An `Err` is want of memory.
fn seat(
    alloc: Global,
    host: &Host,
    lockspace: &LockspaceArg,
    place: &mut Option<Member>,
) -> Result<(), AllocError>
    requires { MayBeSeated host.now.kept (AddLockspace lockspace.now) }
    ensures { OnOk result (HasPlace host.now (AddLockspace lockspace.now) place.new) }
{
    let leases = calls_for(host);
    let member = host.seat(alloc, lockspace, host.next_job(), leases)?;
    *place = Some(member);
    Ok(())
}

/// The member that a command joins with, if it does, takes its place. An `Err` is want of memory.
fn seat_for(
    alloc: Global,
    host: &Host,
    command: &Command,
    place: &mut Option<Member>,
) -> Result<(), AllocError>
    requires { MayBeSeated host.now.kept command.now }
    ensures { OnOk result (HasPlace host.now command.now place.new) }
{
    match command {
        Command::AddLockspace(lockspace) => seat(alloc, host, lockspace, place),
        _ => Ok(()),
    }
}

/// A step at a line that says no command: the column of the first word that doesn't fit is told.
fn step_misread(
    alloc: Global,
    host: &mut Host,
    scratch: &mut Scratch,
    now: u64,
    column: u64,
) -> Result<Effects, AllocError>
    requires comes { (text : List ℕ) × StepComes now (LineOf text) host.old.kept × (command_in (forms (layout_of host.old.kept.config.sizes)) text ≡ Err column) }
    requires rests { Rests scratch.old host.old }
    ensures ok { (text : List ℕ) → StepComes now (LineOf text) host.old.kept → command_in (forms (layout_of host.old.kept.config.sizes)) text ≡ Err column
        → IfOk result (λ fx. HasStepped now (LineOf text) host.old host.new fx) }
    ensures err { OnErr result (host.new ≡ host.old) }
    ensures rests { OnErr result (Rests scratch.new host.new) }
    ensures used { OnOk result (scratch.new.spare ≡ false) }
    ensures sizes { scratch.new.sizes ≡ scratch.old.sizes }
{
    let is_loud = start(alloc, host, scratch, now, Reach::Few)?;
    take_misread(host, column);
    Ok(conclude(alloc, host, scratch, is_loud))
}

/// A step at a command whose lists and member are made.
#[tactic(auto, using(crate::proofs::LinePremises::seated))]
fn step_prepared(
    alloc: Global,
    host: &mut Host,
    scratch: &mut Scratch,
    now: u64,
    seat: &mut Option<Member>,
    lists: Lists,
    command: &Command,
) -> Result<Effects, AllocError>
    requires comes { (text : List ℕ) × StepComes now (LineOf text) host.old.kept × (command_in (forms (layout_of host.old.kept.config.sizes)) text ≡ Ok command.now) }
    requires rests { Rests scratch.old host.old }
    requires lists { FitsLists host.old.kept.config.sizes host.old.seats command.now lists }
    requires seat { HasPlace host.old command.now seat.old }
    ensures ok { (text : List ℕ) → StepComes now (LineOf text) host.old.kept → command_in (forms (layout_of host.old.kept.config.sizes)) text ≡ Ok command.now
        → IfOk result (λ fx. HasStepped now (LineOf text) host.old host.new fx) }
    ensures err { OnErr result (host.new ≡ host.old) }
    ensures rests { OnErr result (Rests scratch.new host.new) }
    ensures used { OnOk result (scratch.new.spare ≡ false) }
    ensures sizes { scratch.new.sizes ≡ scratch.old.sizes }
{
    let reach = reach_of(command);
    let is_loud = start(alloc, host, scratch, now, reach)?;
    take_command(host, scratch, seat, lists, command);
    Ok(conclude(alloc, host, scratch, is_loud))
}

/// A step at a command.
#[tactic(auto, using(crate::proofs::LinePremises::may_be_seated))]
fn step_command(
    alloc: Global,
    host: &mut Host,
    scratch: &mut Scratch,
    now: u64,
    command: &Command,
) -> Result<Effects, AllocError>
    requires comes { (text : List ℕ) × StepComes now (LineOf text) host.old.kept × (command_in (forms (layout_of host.old.kept.config.sizes)) text ≡ Ok command.now) }
    requires rests { Rests scratch.old host.old }
    ensures ok { (text : List ℕ) → StepComes now (LineOf text) host.old.kept → command_in (forms (layout_of host.old.kept.config.sizes)) text ≡ Ok command.now
        → IfOk result (λ fx. HasStepped now (LineOf text) host.old host.new fx) }
    ensures err { OnErr result (host.new ≡ host.old) }
    ensures rests { OnErr result (Rests scratch.new host.new) }
    ensures used { OnOk result (scratch.new.spare ≡ false) }
    ensures sizes { scratch.new.sizes ≡ scratch.old.sizes }
{
    let lists = Lists::of(alloc, &host.config().geometry, host.seats(), command)?;
    let mut seat = None;
    seat_for(alloc, host, command, &mut seat)?;
    step_prepared(alloc, host, scratch, now, &mut seat, lists, command)
}

/// A step at a line, at reading `now`. An `Err` is want of memory or of numbers, and changes nothing.
#[tactic(auto, using(crate::proofs::LinePremises::read_command, crate::proofs::LinePremises::read_column))]
pub(crate) fn step_line(
    alloc: Global,
    host: &mut Host,
    scratch: &mut Scratch,
    now: u64,
    text: &[u8],
) -> Result<Effects, AllocError>
    requires comes { StepComes now (LineOf text.now) host.old.kept }
    requires rests { Rests scratch.old host.old }
    ensures ok { IfOk result (λ fx. HasStepped now (LineOf text.now) host.old host.new fx) }
    ensures err { OnErr result (host.new ≡ host.old) }
    ensures rests { OnErr result (Rests scratch.new host.new) }
    ensures used { OnOk result (scratch.new.spare ≡ false) }
    ensures sizes { scratch.new.sizes ≡ scratch.old.sizes }
{
    let read = parse_command(text, &host.config().geometry);
    match &read {
        Err(bad) => step_misread(alloc, host, scratch, now, bad.column),
        Ok(command) => step_command(alloc, host, scratch, now, command),
    }
}
