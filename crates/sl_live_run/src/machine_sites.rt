//! What each machine runs on.
//!
//! A machine's daemon is begun as the world of a replay begins it: with the sessions of the header, renewed at the machine's first reading. One
//! that has none begins with no session, under a name that was drawn for it.

ghost use Rattle.sl_live_run.specs.Causes.{Explains};
ghost use Rattle.sl_live_run.specs.Clocks.{AreTicks, as_first};
ghost use Rattle.sl_live_run.specs.Grounds.{AreReady, IsReady, IsSiteOf, RunsOn, drawn_site};
ghost use Rattle.sl_live_run.specs.Lent.{AreAllHad, AreHad};
ghost use Rattle.sl_live_run.specs.Runs.{disks_in};
ghost use Rattle.sl_outside.specs.Acts.{Grows};
ghost use Rattle.sl_outside.specs.Lendings.{SpawnerOut};
ghost use Rattle.sl_world_state.specs.FirstKept as first_kept;
ghost use Rattle.sl_run.specs.Headers.{IsHeader};
ghost use Rattle.sl_run.specs.Worlds.{clock_reading};
ghost use Rattle.std.specs.Prelude.{IfErr, IfOk, OnOk, [], length, map, ◌∷◌, ◌≡◌, ◌≤◌};

use crate::clocks::TICKS;
use crate::disks::{give_back, lend, take_back};
use crate::ground::{NoGround, Prepared};
use sl_cell::Part;
use sl_command::default_name;
use sl_disks::clock_reading;
use sl_live::Disk;
use sl_live_machine::{Clocks, Parts};
use sl_outside::{LiveDevices, Words};
use sl_run::Header;
use sl_text::Seq;
use sl_trace::Numbers;
use sl_world::{first_site, session_of};
use sl_world_state::Site;
use std::alloc::{AllocError, Global};
use std::collections::VecDeque;

/// With what the daemon of a machine without a session begins: under the name that these bits give.
fn drawn_site(alloc: Global, machine: u32, bits: u128) -> Site
    ensures { result ≡ drawn_site machine bits }
{
    Site {
        machine,
        name: default_name(bits),
        first: Numbers { call: 1, job: 1 },
        given: Seq::new(Vec::new(alloc)),
    }
}

/// With what the daemon of a machine begins. An `Err` is want of memory.
pub fn site_of<V: LiveDevices>(
    alloc: Global,
    header: &Header,
    machine: u32,
    devices: &mut V,
) -> Result<Site, AllocError>
    ensures ok { IfOk result (IsSiteOf header.now machine (first_kept.session_of header.now machine)) }
    ensures lendings { V.Devices.lendings devices.new ≡ V.Devices.lendings devices.old }
    ensures count { V.Devices.faults devices.new ≡ V.Devices.faults devices.old }
{
    match session_of(header, machine) {
        Some(session) => first_site(alloc, header, machine, session),
        None => {
            let bits = devices.words(machine).bits();
            Ok(drawn_site(alloc, machine, bits))
        }
    }
}

/// The clocks of a machine's threads, the first of which was read.
pub fn clocks_of<V: LiveDevices>(machine: u32, ticks: V::Clock, devices: &mut V) -> Clocks<V::Clock>
    ensures ticks { result.ticks ≡ ticks }
    ensures lendings { V.Devices.lendings devices.new ≡ V.Devices.lendings devices.old }
    ensures count { V.Devices.faults devices.new ≡ V.Devices.faults devices.old }
{
    Clocks {
        ticks,
        delta: devices.clock(machine, TICKS + 1),
        resource: devices.clock(machine, TICKS + 2),
        exits: devices.clock(machine, TICKS + 3),
        starts: devices.clock(machine, TICKS + 4),
        tests: devices.clock(machine, TICKS + 5),
        lines: devices.clock(machine, TICKS + 6),
    }
}

/// What a machine runs on: its first clock, which was read, the areas of its workers, and all else made for it.
fn parts_of<V: LiveDevices>(
    header: &Header,
    machine: u32,
    ticks: V::Clock,
    delta: Vec<Disk<V::Area>>,
    resource: Vec<Disk<V::Area>>,
    devices: &mut V,
) -> Parts<V::Clock, V::Spawner, V::Device, V::Area>
    requires ticks { clock_reading header.now machine ≡ as_first (V.Clock.last ticks) }
    ensures runs { RunsOn V.Clock.last V.Spawner.running V.Spawner.acts V.Device.last V.Device.fire header.now machine result }
    ensures areas { (result.delta.items ≡ delta.items) × (result.resource.items ≡ resource.items) }
    ensures lendings { Grows (V.Devices.lendings devices.old) (V.Devices.lendings devices.new) (SpawnerOut machine ∷ []) }
    ensures count { V.Devices.faults devices.new ≡ V.Devices.faults devices.old }
{
    let now = clock_reading(header, machine);
    Parts {
        clocks: clocks_of(machine, ticks, devices),
        spawner: devices.spawner(machine),
        device: devices.device(machine, now, header.timing.fire()),
        delta,
        resource,
    }
}

/// A machine with all that it runs on. After an `Err` no area of its is handed out.
fn prepare_machine<V: LiveDevices>(
    alloc: Global,
    header: &Header,
    folder: &str,
    machine: u32,
    ticks: V::Clock,
    devices: &mut V,
) -> Result<Prepared<V>, NoGround>
    requires header { IsHeader header.now }
    requires ticks { clock_reading header.now machine ≡ as_first (V.Clock.last ticks) }
    ensures ok { IfOk result (λ p. IsReady V.Clock.last V.Spawner.running V.Spawner.acts V.Device.last V.Device.fire header.now machine
        p.site p.parts) }
    ensures had { IfOk result (λ p. AreHad V.Area.content folder.now header.now machine (disks_in p.parts) (V.Devices.lendings devices.old) (V.Devices.lendings devices.new)) }
    ensures err { IfErr result (Explains (V.Devices.faults devices.old) (V.Devices.faults devices.new)) }
    ensures later { V.Devices.faults devices.old ≤ V.Devices.faults devices.new }
{
    let site = site_of(alloc, header, machine, devices)?;
    let delta = lend(alloc, header, folder, machine, Part::Delta, devices)?;
    match lend(alloc, header, folder, machine, Part::Resource, devices) {
        Ok(resource) => Ok(Prepared {
            site,
            parts: parts_of(header, machine, ticks, delta, resource, devices),
        }),
        Err(why) => {
            take_back(delta, devices);
            Err(why)
        }
    }
}

/// The machines of the header, in order, each with its first clock. After an `Err` those that are ready stand there.
fn prepare_each<V: LiveDevices>(
    alloc: Global,
    header: &Header,
    folder: &str,
    clocks: VecDeque<V::Clock>,
    devices: &mut V,
    machines: &mut Vec<Prepared<V>>,
) -> Result<(), NoGround>
    requires header { IsHeader header.now }
    requires ticks { AreTicks V.Clock.last header.now 1 clocks.items }
    requires each { length clocks.items ≡ header.now.machines }
    requires first { machines.old.items ≡ [] }
    ensures each { OnOk result (length machines.new.items ≡ header.now.machines) }
    ensures ready { OnOk result (AreReady V.Clock.last V.Spawner.running V.Spawner.acts V.Device.last V.Device.fire header.now machines.new.items) }
    ensures had { OnOk result (AreAllHad V.Area.content folder.now header.now 1 (map (λ p. disks_in p.parts) machines.new.items) (V.Devices.lendings devices.old) (V.Devices.lendings devices.new)) }
    ensures err { IfErr result (Explains (V.Devices.faults devices.old) (V.Devices.faults devices.new)) }
    ensures later { V.Devices.faults devices.old ≤ V.Devices.faults devices.new }
{
    let mut clocks = clocks;
    for before in 0..header.machines {
        let Some(ticks) = clocks.pop_front() else {
            unreachable!()
        };
        machines.reserve(1)?;
        let machine = prepare_machine(alloc, header, folder, before + 1, ticks, devices)?;
        machines.push_reserved(machine);
    }
    Ok(())
}

/// Takes the areas of these machines back.
fn take_all_back<V: LiveDevices>(machines: Vec<Prepared<V>>, devices: &mut V)
    ensures { V.Devices.faults devices.old ≤ V.Devices.faults devices.new }
{
    let mut machines = machines;
    while let Some(machine) = machines.pop() {
        let Prepared { site: _, parts } = machine;
        let Parts {
            clocks: _,
            spawner: _,
            device: _,
            delta,
            resource,
        } = parts;
        give_back(delta, resource, devices);
    }
}

/// The machines of the header, in order, each with its first clock. After an `Err` no area is handed out.
pub(crate) fn prepare_all<V: LiveDevices>(
    alloc: Global,
    header: &Header,
    folder: &str,
    clocks: VecDeque<V::Clock>,
    devices: &mut V,
) -> Result<Vec<Prepared<V>>, NoGround>
    requires header { IsHeader header.now }
    requires ticks { AreTicks V.Clock.last header.now 1 clocks.items }
    requires each { length clocks.items ≡ header.now.machines }
    ensures each { IfOk result (λ machines. length machines.items ≡ header.now.machines) }
    ensures ready { IfOk result (λ machines. AreReady V.Clock.last V.Spawner.running V.Spawner.acts V.Device.last V.Device.fire header.now machines.items) }
    ensures had { IfOk result (λ machines. AreAllHad V.Area.content folder.now header.now 1 (map (λ p. disks_in p.parts) machines.items) (V.Devices.lendings devices.old) (V.Devices.lendings devices.new)) }
    ensures err { IfErr result (Explains (V.Devices.faults devices.old) (V.Devices.faults devices.new)) }
    ensures later { V.Devices.faults devices.old ≤ V.Devices.faults devices.new }
{
    let mut machines = Vec::new(alloc);
    match prepare_each(alloc, header, folder, clocks, devices, &mut machines) {
        Ok(()) => Ok(machines),
        Err(why) => {
            take_all_back(machines, devices);
            Err(why)
        }
    }
}
