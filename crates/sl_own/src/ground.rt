//! What a machine in a process of its own begins with.

ghost use Rattle.sl_cell.specs.declared.part.Part.TheVariants.{Delta, Resource};
ghost use Rattle.sl_live_run.specs.Clocks.{with_readings};
ghost use Rattle.sl_live_run.specs.Grounds.{IsSiteOf};
ghost use Rattle.sl_outside.specs.Acts.{Grows, Tells};
ghost use Rattle.sl_outside.specs.Disks.{Disks};
ghost use Rattle.sl_outside.specs.Lendings.{Lending, SpawnerOut};
ghost use Rattle.sl_own.specs.OwnGrounds.{AreLeft, Finds, FindsOn, IsOpened, IsOwnGround, NotLent};
ghost use Rattle.sl_run.specs.Headers.{IsHeader};
ghost use Rattle.sl_run.specs.declared.header.Header.{Header as HeaderOf};
ghost use Rattle.sl_world_state.specs.FirstKept.{session_of};
ghost use Rattle.std.specs.Prelude.{IfErr, IfOk, List, Option, [], option_map, ℕ, ◌+◌, ◌∷◌, ◌≡◌, ◌≤◌};

use crate::lending::lend;
use crate::no_place::NoPlace;
use sl_cell::Part;
use sl_live::Disk;
use sl_live_machine::Parts;
use sl_live_run::{
    Prepared, TICKS, clocks_of, give_back, read_once, site_of, take_back, with_readings,
};
use sl_place::StandingDevices;
use sl_run::{FirstReading, Header};
use sl_time::Clock;
use sl_world_state::Site;
use std::alloc::{AllocError, Global};

/// What a machine begins with: the header, with its clock's reading in place of all `clock` lines, how many machines come before it, its site and what
/// it runs on, and the gate round its sector calls.
#[derive(Drop)]
pub(crate) struct OwnGround<V: StandingDevices> {
    pub header: Header,
    pub place: u32,
    pub ready: Prepared<V>,
    pub gate: V::Gate,
}

/// The header with a machine's first reading. An `Err` is want of memory.
fn with_reading(
    alloc: Global,
    header: Header,
    machine: u32,
    reading: u64,
) -> Result<Header, AllocError>
    ensures { IfOk result (λ h. h ≡ with_readings (record { machine = machine; reading = reading } ∷ []) header) }
{
    let mut readings = Vec::new(alloc);
    readings.reserve(1)?;
    readings.push_reserved(FirstReading { machine, reading });
    Ok(with_readings(header, readings))
}

/// What a machine begins with beside its areas: the header with its clock's reading, its site, and this clock, which was read once.
#[derive(Drop)]
struct Start<C: Clock> {
    header: Header,
    site: Site,
    ticks: C,
    reading: u64,
}

/// Reads a machine's clock, and finds its site. An `Err` is want of memory.
fn start_of<V: StandingDevices>(
    alloc: Global,
    header: Header,
    machine: u32,
    devices: &mut V,
) -> Result<Start<V::Clock>, AllocError>
    requires header { IsHeader header }
    requires machine { (1 ≤ machine) × (machine ≤ header.machines) }
    ensures lawful { IfOk result (λ s. IsHeader s.header) }
    ensures same { IfOk result (λ s. s.header ≡ record header { clocks = s.header.clocks }) }
    ensures site { IfOk result (λ s. IsSiteOf s.header machine (session_of s.header machine) s.site) }
    ensures lendings { V.Devices.lendings devices.new ≡ V.Devices.lendings devices.old }
    ensures count { V.Devices.faults devices.new ≡ V.Devices.faults devices.old }
{
    let mut ticks = devices.clock(machine, TICKS);
    let reading = read_once(&mut ticks);
    let header = with_reading(alloc, header, machine, reading)?;
    let site = site_of(alloc, &header, machine, devices)?;
    Ok(Start {
        header,
        site,
        ticks,
        reading,
    })
}

/// Opens the watchdog device of the system at this path, if one is given.
fn watch_if<V: StandingDevices>(
    alloc: Global,
    watchdog: Option<&str>,
    devices: &mut V,
) -> Result<Option<V::Watchdog>, NoPlace>
    ensures opened { IfOk result (IsOpened V.Watchdog.path V.Watchdog.rested (option_map (λ w. w.now) watchdog.entry)) }
    ensures same { V.Devices.disks devices.new ≡ V.Devices.disks devices.old }
    ensures lendings { V.Devices.lendings devices.new ≡ V.Devices.lendings devices.old }
    ensures not { (disks : Disks) (folder : List ℕ) (h : HeaderOf) → IfErr result (NotLent disks folder h Delta (V.Devices.faults devices.old) (V.Devices.faults devices.new)) }
    ensures later { V.Devices.faults devices.old ≤ V.Devices.faults devices.new }
{
    match watchdog {
        Some(path) => {
            let text = String::from_str(alloc, path)?;
            let device = devices.watch(text)?;
            Ok(Some(device))
        }
        None => Ok(None),
    }
}

/// .. and opens the watchdog device. It is the last that can be refused: one that is open fires unless keepalives come.
fn start_watched<V: StandingDevices>(
    alloc: Global,
    header: Header,
    machine: u32,
    watchdog: Option<&str>,
    devices: &mut V,
) -> Result<(Start<V::Clock>, Option<V::Watchdog>), NoPlace>
    requires header { IsHeader header }
    requires machine { (1 ≤ machine) × (machine ≤ header.machines) }
    ensures lawful { IfOk result (λ s. IsHeader s.0.header) }
    ensures same { IfOk result (λ s. s.0.header ≡ record header { clocks = s.0.header.clocks }) }
    ensures site { IfOk result (λ s. IsSiteOf s.0.header machine (session_of s.0.header machine) s.0.site) }
    ensures opened { IfOk result (λ s. IsOpened V.Watchdog.path V.Watchdog.rested (option_map (λ w. w.now) watchdog.entry) s.1) }
    ensures lendings { V.Devices.lendings devices.new ≡ V.Devices.lendings devices.old }
    ensures not { (disks : Disks) (folder : List ℕ) (h : HeaderOf) → IfErr result (NotLent disks folder h Delta (V.Devices.faults devices.old) (V.Devices.faults devices.new)) }
    ensures later { V.Devices.faults devices.old ≤ V.Devices.faults devices.new }
{
    let start = start_of(alloc, header, machine, devices)?;
    let watchdog = watch_if(alloc, watchdog, devices)?;
    Ok((start, watchdog))
}

/// The areas of both workers: of the one of the ids' records, and of the other. After an `Err` none is handed out.
fn lend_both<V: StandingDevices>(
    alloc: Global,
    header: &Header,
    folder: &str,
    machine: u32,
    devices: &mut V,
) -> Result<(Vec<Disk<V::Area>>, Vec<Disk<V::Area>>), NoPlace>
    requires { IsHeader header.now }
    ensures both { IfOk result (λ both. (between : Option (List Lending))
        × AreLeft V.Area.content (FindsOn (V.Devices.disks devices.old) folder.now header.now Delta) folder.now machine Delta header.now.disks both.0.items (V.Devices.lendings devices.old) between
        × AreLeft V.Area.content (Finds header.now Resource) folder.now machine Resource header.now.disks both.1.items between (V.Devices.lendings devices.new)) }
    ensures not { IfErr result (NotLent (V.Devices.disks devices.old) folder.now header.now Delta (V.Devices.faults devices.old) (V.Devices.faults devices.new)) }
    ensures later { V.Devices.faults devices.old ≤ V.Devices.faults devices.new }
{
    let delta = lend(alloc, header, folder, machine, Part::Delta, devices)?;
    match lend(alloc, header, folder, machine, Part::Resource, devices) {
        Ok(resource) => Ok((delta, resource)),
        Err(why) => {
            take_back(delta, devices);
            Err(why)
        }
    }
}

/// What a machine runs on, with what it starts with and its areas.
fn ground_of<V: StandingDevices>(
    machine: u32,
    start: Start<V::Clock>,
    delta: Vec<Disk<V::Area>>,
    resource: Vec<Disk<V::Area>>,
    devices: &mut V,
) -> OwnGround<V>
    requires { 1 ≤ machine }
    ensures header { result.header ≡ start.header }
    ensures numbered { machine ≡ result.place + 1 }
    ensures site { result.ready.site ≡ start.site }
    ensures unasked { Tells (V.Spawner.acts result.ready.parts.spawner) [] }
    ensures delta { result.ready.parts.delta.items ≡ delta.items }
    ensures resource { result.ready.parts.resource.items ≡ resource.items }
    ensures lendings { Grows (V.Devices.lendings devices.old) (V.Devices.lendings devices.new) (SpawnerOut machine ∷ []) }
    ensures count { V.Devices.faults devices.new ≡ V.Devices.faults devices.old }
{
    let Start {
        header,
        site,
        ticks,
        reading,
    } = start;
    let fire = header.timing.fire();
    let parts = Parts {
        clocks: clocks_of(machine, ticks, devices),
        spawner: devices.spawner(machine),
        device: devices.device(machine, reading, fire),
        delta,
        resource,
    };
    OwnGround {
        header,
        place: machine - 1,
        ready: Prepared { site, parts },
        gate: devices.gate(),
    }
}

/// Gets all that a machine runs on, in a place that was taken. Its clock is read once its areas were compared, so that its watchdog device counts from
/// then on; one of the system is opened behind that, if one is asked for. After an `Err` no area is handed out, and no such device is open; nothing was
/// written.
pub(crate) fn prepare_own<V: StandingDevices>(
    alloc: Global,
    header: Header,
    folder: &str,
    machine: u32,
    watchdog: Option<&str>,
    devices: &mut V,
) -> Result<(OwnGround<V>, Option<V::Watchdog>), NoPlace>
    requires header { IsHeader header }
    requires machine { (1 ≤ machine) × (machine ≤ header.machines) }
    ensures ok { IfOk result (λ own. IsOwnGround V.Area.content V.Spawner.acts (V.Devices.disks devices.old) folder.now header machine (V.Devices.lendings devices.old) (V.Devices.lendings devices.new) own.0) }
    ensures opened { IfOk result (λ own. IsOpened V.Watchdog.path V.Watchdog.rested (option_map (λ w. w.now) watchdog.entry) own.1) }
    ensures not { IfErr result (NotLent (V.Devices.disks devices.old) folder.now header Delta (V.Devices.faults devices.old) (V.Devices.faults devices.new)) }
    ensures later { V.Devices.faults devices.old ≤ V.Devices.faults devices.new }
{
    let (delta, resource) = lend_both(alloc, &header, folder, machine, devices)?;
    match start_watched(alloc, header, machine, watchdog, devices) {
        Ok((start, watchdog)) => Ok((
            ground_of(machine, start, delta, resource, devices),
            watchdog,
        )),
        Err(why) => {
            give_back(delta, resource, devices);
            Err(why)
        }
    }
}
