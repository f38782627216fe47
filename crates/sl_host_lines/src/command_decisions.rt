//! What a command comes to.

ghost use Rattle.sl_area.specs.AreaSizes.{layout_of};
ghost use Rattle.sl_host_lines.specs.ListMemory.{FitsLists};
ghost use Rattle.sl_host_law.specs.Decisions.CommandDecisions.{decision_of};
ghost use Rattle.sl_host_state.specs.KeptState.{state_of};
ghost use Rattle.sl_trace.specs.CommandForms.{IsCommand};
ghost use Rattle.sl_host.specs.BookQuestions.{state_in};
ghost use Rattle.sl_host.specs.Host.{ReadAs};
ghost use Rattle.std.specs.Prelude.{List, cond, ℕ, ◌≡◌};

use crate::acquire_commands::decide_acquire;
use crate::holder_commands::{decide_convert, decide_release, decide_request};
use crate::list_memory::Lists;
use crate::lockspace_commands::{decide_add, decide_inquiry, decide_leave};
use crate::orphan_commands::{decide_release_orphan, decide_take_over};
use crate::told_lists::{decide_states, decide_status};
use crate::value_commands::{decide_get, decide_set};
use sl_due::Decision;
use sl_host::Host;
use sl_trace::{Command, Mode};

/// The mode that is meant.
fn mode_of(shared: bool) -> Mode
    ensures { result ≡ cond shared Mode.Shared Mode.Exclusive }
{
    if shared {
        Mode::Shared
    } else {
        Mode::Exclusive
    }
}

/// What a command comes to, of a host that reads no line.
fn decided(host: &Host, command: &Command, lists: Lists) -> Decision
    requires command { IsCommand (layout_of host.now.kept.config.sizes) command.now }
    requires lists { FitsLists host.now.kept.config.sizes host.now.seats command.now lists }
    ensures { result ≡ decision_of (state_in host.now.kept) command.now }
{
    match command {
        Command::AddLockspace(lockspace) => decide_add(host, lockspace),
        Command::RemLockspace(lockspace) => decide_leave(host, lockspace),
        Command::InqLockspace(lockspace) => decide_inquiry(host, lockspace),
        Command::HostStatus(lockspace) => decide_states(host, lockspace, lists),
        Command::Acquire {
            resource,
            shared,
            process,
            ..
        } => decide_acquire(host, resource, Some(*process), *shared),
        Command::TakeOver {
            resource,
            shared,
            process,
            ..
        } => decide_take_over(host, resource, *process, *shared),
        Command::Release { resource, process } => decide_release(host, resource, *process),
        Command::ReleaseOrphan(resource) => decide_release_orphan(host, resource),
        Command::Convert {
            resource,
            shared,
            process,
        } => decide_convert(host, resource, *process, mode_of(*shared)),
        Command::RunProgram {
            resource,
            shared,
            ..
        } => decide_acquire(host, resource, None, *shared),
        Command::Request { resource, .. } => decide_request(host, resource),
        Command::GetLvb { resource, process } => decide_get(host, resource, *process),
        Command::SetLvb {
            resource,
            process,
            value,
        } => decide_set(host, resource, *process, *value),
        Command::SetKillpath { process, .. } => host.decide_killpath(*process),
        Command::Status => decide_status(host, lists),
    }
}

/// What a command that was read comes to, by what the host keeps: as the definitions say, however lines are read. There is memory for the list
/// that it is answered by, if it is.
#[tactic(auto, using(crate::proofs::DecisionsAre::reads_nothing))]
pub fn decide(host: &Host, command: &Command, lists: Lists) -> Decision
    requires command { IsCommand (layout_of host.now.kept.config.sizes) command.now }
    requires lists { FitsLists host.now.kept.config.sizes host.now.seats command.now lists }
    ensures { (read : List ℕ → ReadAs) → result ≡ decision_of (state_of read host.now.kept) command.now }
{
    decided(host, command, lists)
}
