//! The script as a daemon of a world.

ghost use Rattle.sl_play.specs.Headers.HeaderLaw.{whole_commands};
ghost use Rattle.sl_run.specs.Refusals.{is_for_locks};
ghost use Rattle.sl_script.specs.ScriptStates.{Follows, are_open, is_due, most_of, starts_wait};
ghost use Rattle.std.specs.Prelude.{Ok, find, option_copied, true, ◌<◌, ◌==◌, ◌≡◌};

use crate::answered_inputs::{Heard, SeenChild};
use crate::draft::MOST;
use crate::script::Script;
use sl_command::parse_command;
use sl_run::Header;
use sl_sector::Images;
use sl_trace::{Answer, Call, Command, Effects, Input, Op};
use sl_world_state::{Daemon, Most, Site};
use std::alloc::{AllocError, Global};

/// The process by which lvmlockd holds.
const LOCK_PROCESS: u32 = 1_000_000;

/// Whether a command is for that process.
fn acts_for_locks(command: &Command) -> bool
    ensures { result ≡ is_for_locks (Ok command.now) }
{
    match command {
        Command::Acquire { process, .. }
        | Command::TakeOver { process, .. }
        | Command::Release { process, .. }
        | Command::Convert { process, .. }
        | Command::GetLvb { process, .. }
        | Command::SetLvb { process, .. } => *process == LOCK_PROCESS,
        _ => false,
    }
}

/// Whether the answer is one that the op can have.
fn is_answer_for(answer: &Answer, op: &Op, sector: u32) -> bool
    ensures { result ≡ is_due sector answer.now op.now }
{
    match (answer, op) {
        (Answer::Failed, _) => true,
        (Answer::Written, Op::WriteRecord { .. }) => true,
        (Answer::Read(bytes), Op::ReadSectors { sectors }) => {
            bytes.len() as u64 == *sectors as u64 * sector as u64
        }
        _ => false,
    }
}

/// Whether one of the calls has this number, and may have this answer.
fn is_open(calls: &[Call], number: u64, answer: &Answer, sector: u32) -> bool
    ensures { result ≡ are_open sector number answer.now calls.now }
{
    calls.iter().any(|call| call.number == number && is_answer_for(answer, &call.op, sector))
}

/// Whether the child has this number.
fn is_numbered(child: &SeenChild, process: u32) -> bool
    ensures { result ≡ (child.now.process == process) }
{
    child.process == process
}

/// The first child of this number.
fn find_child(children: &[SeenChild], process: u32) -> Option<&SeenChild>
    ensures { option_copied result ≡ find (λ k. k.process == process) children.now }
{
    children.iter().find(|child| is_numbered(child, process))
}

/// Whether the first child of this number has no answer yet.
fn is_starting(children: &[SeenChild], process: u32) -> bool
    ensures { result ≡ starts_wait process children.now }
{
    match find_child(children, process) {
        Some(child) => !child.answered,
        None => false,
    }
}

impl Daemon for Script {
    ghost commands = { whole_commands };

    ghost stands = { λ s st es. Follows s st es };

    ghost makes = { λ s. most_of };

    ghost spare = { λ s. 1 };

    ghost takes_more = { λ s i. true };

    fn is_for_locks(header: &Header, text: &[u8]) -> bool {
        match parse_command(text, &header.geometry) {
            Ok(command) => acts_for_locks(&command),
            Err(_) => false,
        }
    }

    #[tactic(auto, using(crate::proofs::ScriptsFollow::follows_first))]
    fn begin(alloc: Global, header: &Header, site: Site) -> Result<Script, AllocError> {
        Ok(Script::new(alloc, header.geometry.sector(), site.first.call))
    }

    #[tactic(auto, using(crate::proofs::ScriptsFollow::expects_answer, crate::proofs::ScriptsFollow::expects_start))]
    fn expects(&self, input: &Input) -> bool {
        match input {
            Input::Answer { call, answer } => {
                is_open(self.open_calls(), *call, answer, self.sector())
            }
            Input::Spawned { process, .. } => is_starting(self.children(), *process),
            _ => true,
        }
    }

    fn most(&self) -> Most {
        Most {
            ends: MOST,
            signals: MOST,
            moves: MOST,
            grants: MOST,
            starts: MOST,
            replies: MOST,
            calls: MOST,
        }
    }

    // each of its steps takes memory, so none stands by
    fn reserve(&mut self) -> Result<(), AllocError> {
        Ok(())
    }

    #[tactic(auto, using(crate::proofs::ScriptsFollow::step_stays, crate::proofs::ScriptsFollow::step_is_sound))]
    fn step(&mut self, now: u64, input: &Input) -> Result<Effects, AllocError> {
        self.follow(input)?;
        self.go_on(Heard::of(input))
    }

    // a script's effects are written out anew each time
    fn take_back(&mut self, told: &mut Effects) {}

    #[tactic(auto, using(crate::proofs::ScriptsFollow::step_stays, crate::proofs::ScriptsFollow::step_is_sound))]
    fn read(&mut self, now: u64, call: u64, sectors: &Images) -> Result<Effects, AllocError> {
        self.go_on(Heard::Call { number: call })
    }
}
