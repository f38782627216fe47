//! A host is a daemon of a world.

ghost use Rattle.sl_world_state.specs.Daemons.{IsNumbered, IsStep, MayCome, begun_with, entry_of, read_of};
ghost use Rattle.sl_host_step.specs.SpareRoom.{spare_of, takes_more};
ghost use Rattle.sl_host_step.specs.StepMemory.{most_of};
ghost use Rattle.sl_host_step.specs.HostServes.{IsIdle, Serves, whole_commands};
ghost use Rattle.sl_host_step.specs.AwaitedCalls.{joins_at};
ghost use Rattle.sl_trace.specs.Traces.{Setting, Trace};
ghost use Rattle.sl_run.specs.Lawful.{IsSetting};
ghost use Rattle.sl_run.specs.Refusals.{is_for_locks};
ghost use Rattle.sl_run.specs.Headers.{IsHeader};
ghost use Rattle.std.specs.Prelude.{IfOk, IsOk, Ok, OnErr, OnOk, count_by, false, length, max, [], ◌∷◌, ◌==◌, ◌≡◌, ◌≤◌};

use crate::bytes::{are_byte_sectors, is_byte_input};
use crate::expected_inputs::is_expected;
use crate::input_steps::{step_at, step_read};
use crate::step_memory::{Scratch, calls_for, left_for, stand_by};
use sl_command::parse_command;
use sl_host::{Config, Host};
use sl_host_work::process_named;
use sl_lease::Blocks;
use sl_run::Header;
use sl_sector::Images;
use sl_trace::{Command, Effects, Input};
use sl_world_state::{Daemon, Most, Site};
use std::alloc::{AllocError, Global};
use std::marker::Model;

/// The process by which lvmlockd holds.
const LOCK_PROCESS: u32 = 1_000_000;

/// How many zeros that number has: so many stand in each command for the process.
const LOCK_ZEROS: usize = 6;

/// How many zeros a text has.
fn zeros(text: &[u8]) -> usize
    ensures { result ≡ count_by (λ c. c == 48) text.now }
{
    text.iter().filter(|byte| **byte == b'0').count()
}

/// Whether a command is for that process.
fn acts_for_locks(command: &Command) -> bool
    ensures { result ≡ is_for_locks (Ok command.now) }
{
    match command {
        Command::SetKillpath { .. } => false,
        _ => process_named(command) == Some(LOCK_PROCESS),
    }
}

/// The host of a header at a site, before any step. An `Err` is want of memory.
#[tactic(auto, using(crate::proofs::HostDaemons::may_be_given, crate::proofs::HostDaemons::begins_serving))]
fn host_at(alloc: Global, header: &Header, site: &Site) -> Result<Host, AllocError>
    requires { IsHeader header.now × IsSetting (begun_with whole_commands header.now site.now) }
    ensures serves { IfOk result (λ h. Serves h (begun_with whole_commands header.now site.now) []) }
    ensures idle { IfOk result (λ h. IsIdle h) }
    ensures sizes { IfOk result (λ h. h.kept.config.sizes ≡ header.now.geometry) }
{
    let config = Config {
        timing: header.timing,
        grace: header.grace,
        geometry: header.geometry,
        machine: site.machine,
        name: site.name,
    };
    Host::new(alloc, config, site.first, site.given.as_slice())
}

/// A host, with the lists that its steps go by. Between two steps it may have the room of one step more (`reserve`).
#[derive(Drop)]
pub struct HostDaemon {
    alloc: Global,
    host: Host,
    scratch: Scratch,
}

impl Model for HostDaemon {
    ghost use Rattle.sl_host.specs.Host.{HostView};
    ghost use Rattle.sl_host_step.specs.SpareRoom.{Rests};
    ghost use Rattle.std.specs.Prelude.{◌≡◌};

    ghost Value = { HostView };

    ghost view = { λ d. d.host };

    ghost invariant = { λ d. (d.scratch.sizes ≡ d.host.kept.config.sizes) × Rests d.scratch d.host };
}

impl HostDaemon {
    /// How long a list in a reply of the next step may be: that of an area's hosts, or of the sessions for which there is memory.
    pub fn longest_list(&self) -> usize
        ensures exact { result ≡ max self.now.kept.config.sizes.hosts self.now.seats }
        ensures hosts { self.now.kept.config.sizes.hosts ≤ result }
        ensures members { length self.now.kept.members ≤ result }
    {
        let hosts = self.host.config().geometry.hosts() as usize;
        hosts.max(self.host.seats())
    }
}

impl Daemon for HostDaemon {
    ghost commands = { whole_commands };

    ghost stands = { Serves };

    ghost makes = { most_of };

    ghost spare = { spare_of };

    ghost takes_more = { λ d i. takes_more d.kept i };

    fn is_for_locks(header: &Header, text: &[u8]) -> bool {
        // the step parses the text again, so here it is parsed only where it can name the process
        if zeros(text) < LOCK_ZEROS {
            return false;
        }
        match parse_command(text, &header.geometry) {
            Ok(command) => acts_for_locks(&command),
            Err(_) => false,
        }
    }

    #[tactic(auto, using(crate::proofs::SpareRoom::rests_without))]
    fn begin(alloc: Global, header: &Header, site: Site) -> Result<HostDaemon, AllocError> {
        let blocks = Blocks::new(alloc, &header.geometry)?;
        let host = host_at(alloc, header, &site)?;
        let scratch = Scratch::new(alloc, &header.geometry, blocks);
        Ok(HostDaemon {
            alloc,
            host,
            scratch,
        })
    }

    #[tactic(auto, using(crate::proofs::HostDaemons::expected_of))]
    fn expects(&self, input: &Input) -> bool {
        is_expected(&self.host, input)
    }

    fn most(&self) -> Most {
        let left = left_for(&self.host);
        Most {
            ends: left,
            signals: left,
            moves: left,
            grants: left,
            starts: left,
            replies: left,
            calls: calls_for(&self.host),
        }
    }

    #[tactic(auto, using(crate::proofs::SpareRoom::stands_by, crate::proofs::SpareRoom::serves_still, crate::proofs::SpareRoom::nothing_made))]
    fn reserve(&mut self) -> Result<(), AllocError>
        requires { (st : Setting) × (es : Trace) × Serves self.old st es }
        ensures ok { OnOk result (spare_of self.new ≡ 1) }
        ensures kept { self.new.kept ≡ self.old.kept }
        ensures serves { (st : Setting) (es : Trace) → Serves self.old st es → Serves self.new st es }
        ensures err { OnErr result (self.new ≡ self.old) }
    {
        stand_by(self.alloc, &mut self.host, &mut self.scratch)
    }

    #[tactic(auto, using(crate::proofs::HostDaemons::comes_so, crate::proofs::HostDaemons::steps_so, crate::proofs::HostDaemons::is_step_so, crate::proofs::HostDaemons::sizes_so, crate::proofs::SpareRoom::is_standing, crate::proofs::SpareRoom::rests_on, crate::proofs::SpareRoom::spent))]
    fn step(&mut self, now: u64, input: &Input) -> Result<Effects, AllocError> {
        is_byte_input(input);
        step_at(self.alloc, &mut self.host, &mut self.scratch, now, input)
    }

    fn take_back(&mut self, told: &mut Effects) {
        self.scratch.take_back(told);
    }

    #[tactic(auto, using(crate::proofs::HostDaemons::comes_so, crate::proofs::HostDaemons::steps_so, crate::proofs::HostDaemons::is_step_so, crate::proofs::HostDaemons::sizes_so, crate::proofs::SpareRoom::is_standing, crate::proofs::SpareRoom::rests_on, crate::proofs::SpareRoom::spent))]
    fn read(&mut self, now: u64, call: u64, sectors: &Images) -> Result<Effects, AllocError>
        requires { (st : Setting) × (es : Trace) × Serves self.old st es × MayCome st es now (read_of call sectors.now) }
        ensures stays { (st : Setting) → (es : Trace) → Serves self.old st es → MayCome st es now (read_of call sectors.now)
            → IfOk result (λ fx. Serves self.new st (entry_of now (read_of call sectors.now) fx ∷ es) × IsNumbered st es fx) }
        ensures sound { (st : Setting) → (es : Trace) → Serves self.old st es → MayCome st es now (read_of call sectors.now)
            → IfOk result (IsStep st (most_of self.old)) }
        ensures err { OnErr result (self.new ≡ self.old) }
        // as above, of sectors that are cut as the host's
        ensures spared { spare_of self.old ≡ 1 → sectors.now.size ≡ self.old.kept.config.sizes.sector → joins_at self.old.kept call ≡ false → IsOk result }
        ensures spent { spare_of self.new ≤ spare_of self.old }
    {
        are_byte_sectors(sectors);
        step_read(
            self.alloc,
            &mut self.host,
            &mut self.scratch,
            now,
            call,
            sectors,
        )
    }
}
