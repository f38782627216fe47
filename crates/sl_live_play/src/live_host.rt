//! A host that a cell steps: all that it does is a host's.

ghost use Rattle.sl_world_state.specs.Daemons.{IsNumbered, IsStep, MayCome, entry_of, read_of};
ghost use Rattle.sl_host_step.specs.SpareRoom.{spare_of, takes_more};
ghost use Rattle.sl_host_step.specs.StepMemory.{most_of};
ghost use Rattle.sl_host_step.specs.HostServes.{Serves, whole_commands};
ghost use Rattle.sl_host_step.specs.AwaitedCalls.{joins_at};
ghost use Rattle.sl_trace.specs.Traces.{Setting, Trace};
ghost use Rattle.std.specs.Prelude.{IfOk, IsOk, OnErr, false, ◌∷◌, ◌≡◌, ◌≤◌};

use sl_cell::Teller;
use sl_host_step::HostDaemon;
use sl_run::Header;
use sl_sector::Images;
use sl_trace::{Effects, Input};
use sl_world_state::{Daemon, Most, Site};
use std::alloc::{AllocError, Global};
use std::marker::Model;

/// A host as a daemon of a cell. Contracts see it as the host.
#[derive(Drop)]
pub struct LiveHost {
    host: HostDaemon,
}

impl Model for LiveHost {
    ghost use Rattle.sl_host.specs.Host.{HostView};

    ghost Value = { HostView };

    ghost view = { λ h. h.host };
}

impl Daemon for LiveHost {
    ghost commands = { whole_commands };

    ghost stands = { Serves };

    ghost makes = { most_of };

    ghost spare = { spare_of };

    ghost takes_more = { λ d i. takes_more d.kept i };

    fn is_for_locks(header: &Header, text: &[u8]) -> bool {
        HostDaemon::is_for_locks(header, text)
    }

    fn begin(alloc: Global, header: &Header, site: Site) -> Result<LiveHost, AllocError> {
        Ok(LiveHost {
            host: HostDaemon::begin(alloc, header, site)?,
        })
    }

    fn expects(&self, input: &Input) -> bool {
        self.host.expects(input)
    }

    fn most(&self) -> Most {
        self.host.most()
    }

    fn reserve(&mut self) -> Result<(), AllocError> {
        self.host.reserve()
    }

    fn step(&mut self, now: u64, input: &Input) -> Result<Effects, AllocError> {
        self.host.step(now, input)
    }

    fn take_back(&mut self, told: &mut Effects) {
        self.host.take_back(told);
    }

    fn read(&mut self, now: u64, call: u64, sectors: &Images) -> Result<Effects, AllocError>
        requires { (st : Setting) × (es : Trace) × Serves self.old st es × MayCome st es now (read_of call sectors.now) }
        ensures stays { (st : Setting) → (es : Trace) → Serves self.old st es → MayCome st es now (read_of call sectors.now)
            → IfOk result (λ fx. Serves self.new st (entry_of now (read_of call sectors.now) fx ∷ es) × IsNumbered st es fx) }
        ensures sound { (st : Setting) → (es : Trace) → Serves self.old st es → MayCome st es now (read_of call sectors.now)
            → IfOk result (IsStep st (most_of self.old)) }
        ensures err { OnErr result (self.new ≡ self.old) }
        // as above, of sectors that are cut as the host's
        ensures spared { spare_of self.old ≡ 1 → sectors.now.size ≡ self.old.kept.config.sizes.sector → joins_at self.old.kept call ≡ false → IsOk result }
        ensures spent { spare_of self.new ≤ spare_of self.old }
    {
        self.host.read(now, call, sectors)
    }
}

impl Teller for LiveHost {
    fn longest(&self) -> usize {
        self.host.longest_list()
    }
}
