//! The daemons that run, by their machines.
//!
//! One daemon takes a step, begins or ends at a time; the others stay as they are.

ghost use Rattle.sl_world_state.specs.Daemons.{begun_with, read_of};
ghost use Rattle.sl_world_state.specs.SaneWorlds.{ReadsCommands};
ghost use Rattle.sl_run.specs.Lawful.{IsSetting};
ghost use Rattle.sl_run.specs.Headers.{IsHeader};
ghost use Rattle.sl_world.specs.RunningDaemons.{HostBegun, HostStepped, MayStepAt};
ghost use Rattle.sl_world_law.specs.WorldsStand.{HaveBegun, HasBegun};
ghost use Rattle.sl_world_state.specs.FirstKept as first_kept;
ghost use Rattle.std.specs.List.{slice_set};
ghost use Rattle.std.specs.Prelude.{IfOk, None, OnErr, OnOk, Option, Some, [], ◌++◌, ◌+◌, ◌∷◌, length, slice_get, ◌<◌, ◌≡◌};

use crate::sites::{first_site, session_of};
use sl_run::Header;
use sl_sector::Images;
use sl_trace::{Effects, Input};
use sl_world_state::{Daemon, Most, Site};
use std::alloc::{AllocError, Global};
use std::marker::Model;

/// The daemons that run, by their machines.
#[derive(Drop)]
pub struct Hosts<D: Daemon> {
    items: Vec<Option<D>>,
}

impl<D: Daemon> Model for Hosts<D> {
    ghost use Rattle.std.specs.Prelude.{List, Option};

    ghost Value = { List (Option D) };

    ghost view = { λ h. h.items.items };
}

/// The daemon of a session line, if there is one. An `Err` is want of memory.
fn begin_first<D: Daemon>(
    alloc: Global,
    header: &Header,
    machine: u32,
) -> Result<Option<D>, AllocError>
    requires { IsHeader header.now × ReadsCommands D.commands header.now }
    ensures { IfOk result (HasBegun D.commands D.stands header.now machine (first_kept.session_of header.now machine)) }
{
    match session_of(header, machine) {
        Some(session) => {
            let site = first_site(alloc, header, machine, session)?;
            Ok(Some(D::begin(alloc, header, site)?))
        }
        None => Ok(None),
    }
}

/// One step of the daemon, if one runs; an `Err` where none does.
fn step_host<D: Daemon>(
    host: &mut Option<D>,
    now: u64,
    input: &Input,
) -> Result<Effects, AllocError>
    requires { MayStepAt D.stands (host.old ∷ []) 0 now input.now }
    ensures ok { IfOk result (HostStepped D.stands D.makes (host.old ∷ []) 0 now input.now (host.new ∷ [])) }
    ensures err { OnErr result (host.new ≡ host.old) }
{
    match host {
        Some(host) => host.step(now, input),
        None => Err(AllocError),
    }
}

/// How much the next step of the daemon makes at most; nothing where none runs.
fn most_of<D: Daemon>(host: &Option<D>) -> Most
    ensures { (h : D) → host.now ≡ Some h → result ≡ D.makes h }
{
    match host {
        Some(host) => host.most(),
        None => Most {
            ends: 0,
            signals: 0,
            moves: 0,
            grants: 0,
            starts: 0,
            replies: 0,
            calls: 0,
        },
    }
}

/// One step of the daemon, if one runs, at the answer ok of a read; an `Err` where none does.
fn read_host<D: Daemon>(
    host: &mut Option<D>,
    now: u64,
    call: u64,
    sectors: &Images,
) -> Result<Effects, AllocError>
    requires { MayStepAt D.stands (host.old ∷ []) 0 now (read_of call sectors.now) }
    ensures ok { IfOk result (HostStepped D.stands D.makes (host.old ∷ []) 0 now (read_of call sectors.now) (host.new ∷ [])) }
    ensures err { OnErr result (host.new ≡ host.old) }
{
    match host {
        Some(host) => host.read(now, call, sectors),
        None => Err(AllocError),
    }
}

/// The effects of a step of the daemon were told, if one runs. Nothing that is seen changes.
fn take_back_host<D: Daemon>(host: &mut Option<D>, told: &mut Effects)
    ensures { host.new ≡ host.old }
{
    match host {
        Some(host) => host.take_back(told),
        None => {}
    }
}

impl<D: Daemon> Hosts<D> {
    /// The daemons of a header's session lines. An `Err` is want of memory.
    pub fn begin(alloc: Global, header: &Header) -> Result<Hosts<D>, AllocError>
        requires { IsHeader header.now × ReadsCommands D.commands header.now }
        ensures { IfOk result (HaveBegun D.commands D.stands header.now) }
    {
        let mut items = Vec::new(alloc);
        for machine in 0..header.machines {
            items.push(begin_first(alloc, header, machine + 1)?)?;
        }
        Ok(Hosts { items })
    }

    /// How many places there are.
    pub fn count(&self) -> usize
        ensures { result ≡ length self.now }
    {
        self.items.len()
    }

    /// How much the next step of the daemon at this place makes at most.
    pub fn most(&self, index: usize) -> Most
        requires { index < length self.now }
        ensures { (h : D) → slice_get self.now index ≡ Some (Some h) → result ≡ D.makes h }
    {
        most_of(&self.items[index])
    }

    /// One step of the daemon at this place. An `Err` is want of memory, and changes nothing.
    pub fn step(&mut self, index: usize, now: u64, input: &Input) -> Result<Effects, AllocError>
        requires { MayStepAt D.stands self.old index now input.now }
        ensures ok { IfOk result (HostStepped D.stands D.makes self.old index now input.now self.new) }
        ensures err { OnErr result (self.new ≡ self.old) }
    {
        step_host(&mut self.items[index], now, input)
    }

    /// The effects of a step of the daemon at this place were told: their memory may serve a later step. Nothing that is seen changes.
    pub fn take_back(&mut self, index: usize, told: &mut Effects)
        ensures { self.new ≡ self.old }
    {
        if index < self.items.len() {
            take_back_host(&mut self.items[index], told);
        }
    }

    /// One step of the daemon at this place, at the answer ok of a read. An `Err` is want of memory, and changes nothing.
    pub fn read(
        &mut self,
        index: usize,
        now: u64,
        call: u64,
        sectors: &Images,
    ) -> Result<Effects, AllocError>
        requires { MayStepAt D.stands self.old index now (read_of call sectors.now) }
        ensures ok { IfOk result (HostStepped D.stands D.makes self.old index now (read_of call sectors.now) self.new) }
        ensures err { OnErr result (self.new ≡ self.old) }
    {
        read_host(&mut self.items[index], now, call, sectors)
    }

    /// A daemon begins at this place. An `Err` is want of memory, and changes nothing.
    pub fn start(
        &mut self,
        alloc: Global,
        header: &Header,
        index: usize,
        site: Site,
    ) -> Result<(), AllocError>
        requires place { index < length self.old }
        requires site { IsHeader header.now × IsSetting (begun_with D.commands header.now site) }
        ensures ok { OnOk result (HostBegun D.commands D.stands header.now site self.old index self.new) }
        ensures err { OnErr result (self.new ≡ self.old) }
    {
        let host = D::begin(alloc, header, site)?;
        self.items[index] = Some(host);
        Ok(())
    }

    /// The daemon at this place ends, if one runs.
    pub fn end(&mut self, index: usize)
        requires { index < length self.old }
        ensures { self.new ≡ slice_set self.old index None }
    {
        self.items[index] = None;
    }
}
