//! The play of a script for one machine in a process of its own.

ghost use Rattle.sl_outside.specs.Acts.{Tells};
ghost use Rattle.sl_outside.specs.Disks.{Disks};
ghost use Rattle.sl_outside.specs.Lendings.{Lending};
ghost use Rattle.sl_own.specs.OwnGrounds.{Bars, IsOpened, IsOwnGround, IsPlaceOf};
ghost use Rattle.sl_own.specs.OwnOwed.{HasLived, MayRun, OwesOwn, PutsNoPlace, RestsOwn, header_refusal};
ghost use Rattle.sl_reader.specs.HeaderBegins.{HeaderBegins};
ghost use Rattle.sl_reader.specs.LineReads.{EndStands};
ghost use Rattle.sl_reader.specs.Scopes.{own_scope};
ghost use Rattle.sl_report.specs.Languages.{whole_language};
ghost use Rattle.sl_report.specs.OwedReports.{HeadersAreGood};
ghost use Rattle.sl_run.specs.Headers.{IsHeader};
ghost use Rattle.sl_run.specs.Lawful.{IsSetting};
ghost use Rattle.sl_run.specs.declared.header.Header.{Header as HeaderOf};
ghost use Rattle.sl_world_state.specs.Daemons.{begun_with};
ghost use Rattle.sl_world_state.specs.SaneWorlds.{ReadsCommands};
ghost use Rattle.std.specs.Prelude.{IfErr, IfOk, IfSome, List, OnOk, Option, [], false, option_map, true, ℕ, ◌+◌, ◌<◌, ◌^◌, ◌≡◌, ◌≤◌};

use crate::ground::{OwnGround, prepare_own};
use crate::no_place::{NoPlace, push_no_place};
use crate::place::take_place;
use crate::run::run_own;
use sl_cell::Teller;
use sl_io::{Sink, Source};
use sl_live_play::{Lived, put, put_refusal, put_run};
use sl_live_run::{LiveRun, give_all_back};
use sl_place::{StandingDevices, Watchdog};
use sl_reader::{LineReader, Origin, ReadError, Scope, ScriptLines, read_header};
use sl_run::{Header, Refusal};
use sl_standing::NotStanding;
use std::alloc::Global;
use std::marker::Brand;
use std::sync::Wait;
use std::thread::Threads;
use std::time;

/// How a script for one machine is to be played.
#[derive(Clone, Copy)]
pub struct OwnManner {
    /// The machine that runs, from 1 on.
    pub machine: u32,
    /// Writes are answered once the storage has them.
    pub syncs: bool,
    /// A line that is refused is told, and the script goes on behind it.
    pub keeps: bool,
    /// Beside replies the exits, signals and ends of children and the connections that run out are told.
    pub events: bool,
}

/// Whether there was no memory to see to what stands.
fn is_memory(why: &NoPlace) -> bool {
    match why {
        NoPlace::NotStanding(NotStanding::NoMemory) => true,
        _ => false,
    }
}

/// Puts out why a machine can't run.
fn put_no_place<K: Sink>(alloc: Global, sink: &mut K, why: NoPlace) -> Lived
    ensures { PutsNoPlace (K.taken sink.old) (K.taken sink.new) (K.faults sink.old) (K.faults sink.new) why result }
{
    if is_memory(&why) {
        return Lived::NoMemory;
    }
    let mut out = Vec::new(alloc);
    let pushed = push_no_place(&mut out, &why);
    put(sink, pushed, &out, Lived::AreaFault)
}

/// Tells the watchdog device, if there is one, to rest where the machine ended in order.
fn rest_if<W: Watchdog>(in_order: bool, watchdog: Option<W>) -> Option<W>
    ensures path { option_map W.path result ≡ option_map W.path watchdog }
    ensures rests { in_order ≡ true → IfSome result (λ d. W.rested d ≡ true) }
    ensures stays { in_order ≡ false → result ≡ watchdog }
{
    match watchdog {
        Some(device) => Some(rest_one(in_order, device)),
        None => None,
    }
}

/// .. this one.
fn rest_one<W: Watchdog>(in_order: bool, device: W) -> W
    ensures path { W.path result ≡ W.path device }
    ensures rests { in_order ≡ true → W.rested result ≡ true }
    ensures stays { in_order ≡ false → result ≡ device }
{
    if in_order {
        let mut device = device;
        device.rest();
        device
    } else {
        device
    }
}

/// Runs the machine of this ground, beside the lines that are still to be read, as a script of this origin.
fn play_as<
    D: Teller + Send,
    J: Origin + Send + Sync,
    S: Source + Send,
    K: Sink + Send,
    V: StandingDevices,
    R: Threads + Wait + time::Clock + Eprint + Sync,
>(
    rt: &R,
    alloc: Global,
    ground: OwnGround<V>,
    watchdog: Option<V::Watchdog>,
    manner: OwnManner,
    source: S,
    reader: LineReader,
    sink: K,
    devices: &mut V,
) -> (Lived, S, K, Option<V::Watchdog>)
where
    V::Area: Send,
    requires place { ground.place + 1 < 2 ^ 32 }
    requires numbered { manner.machine ≡ ground.place + 1 }
    requires unasked { Tells (V.Spawner.acts ground.ready.parts.spawner) [] }
    requires header { IsHeader ground.header }
    requires setting { IsSetting (begun_with D.Daemon.commands ground.header ground.ready.site) }
    requires ends { EndStands (S.left source) reader }
    requires left { S.left source ≡ J.left }
    requires faults { S.faults source ≡ J.faults }
    requires began { reader ≡ J.began }
    requires scope { own_scope ground.header manner.machine ≡ J.scope }
    requires keeps { manner.keeps ≡ J.keeps }
    ensures rests { (asked : Option (List ℕ)) (disks : Disks) (folder : List ℕ) (lent : Option (List Lending)) (h : HeaderOf) → IsOwnGround V.Area.content V.Spawner.acts disks folder h manner.machine lent (V.Devices.lendings devices.old) ground
        → MayRun disks folder h manner.machine → IsOpened V.Watchdog.path V.Watchdog.rested asked watchdog
        → RestsOwn V.Watchdog.path V.Watchdog.rested asked
        (HasLived D.Daemon.stands D.Daemon.commands (record { content = V.Area.content; faults = V.Area.faults; acts = V.Spawner.acts }) disks folder lent (V.Devices.lendings devices.new) manner.machine) result.3 result.0 }
    ensures owes { (disks : Disks) (folder : List ℕ) (lent : Option (List Lending)) (first : Option (List ℕ)) (h : HeaderOf) → IsOwnGround V.Area.content V.Spawner.acts disks folder h manner.machine lent (V.Devices.lendings devices.old) ground
        → MayRun disks folder h manner.machine → HeaderBegins first (S.left source) reader h
        → OwesOwn D.Daemon.stands D.Daemon.commands (record { content = V.Area.content; faults = V.Area.faults; acts = V.Spawner.acts }) disks folder manner first (S.left result.1) (K.taken sink) (K.taken result.2) (S.faults source) (S.faults result.1)
        (K.faults sink) (K.faults result.2) (V.Devices.faults devices.old) (V.Devices.faults devices.new) lent (V.Devices.lendings devices.new) result.0 }
{
    let scope = Scope::of_machine(&ground.header, manner.machine);
    let mut lines: ScriptLines<S, J> = ScriptLines::new(alloc, source, reader, scope, manner.keeps);
    let run = run_own::<D, ScriptLines<S, J>, K, R, V>(
        rt,
        alloc,
        ground,
        manner.events,
        sink,
        &mut lines,
    );
    let LiveRun {
        replies,
        machines,
        sink,
        cut,
        remains,
        ended: _,
    } = run;
    let mut sink = sink;
    give_all_back::<V>(remains, devices);
    let watchdog = rest_if(replies.is_ok(), watchdog);
    let (source, end) = lines.close();
    let lived = put_run(alloc, &mut sink, cut, machines, replies, end);
    (lived, source, sink, watchdog)
}

/// Runs the machine of this ground, beside the lines that are still to be read.
fn play_ground<
    D: Teller + Send,
    S: Source + Send,
    K: Sink + Send,
    V: StandingDevices,
    R: Threads + Wait + time::Clock + Eprint + Sync,
>(
    rt: &R,
    alloc: Global,
    ground: OwnGround<V>,
    watchdog: Option<V::Watchdog>,
    manner: OwnManner,
    source: S,
    reader: LineReader,
    sink: K,
    devices: &mut V,
) -> (Lived, S, K, Option<V::Watchdog>)
where
    V::Area: Send,
    requires place { ground.place + 1 < 2 ^ 32 }
    requires numbered { manner.machine ≡ ground.place + 1 }
    requires unasked { Tells (V.Spawner.acts ground.ready.parts.spawner) [] }
    requires header { IsHeader ground.header }
    requires setting { IsSetting (begun_with D.Daemon.commands ground.header ground.ready.site) }
    requires ends { EndStands (S.left source) reader }
    ensures rests { (asked : Option (List ℕ)) (disks : Disks) (folder : List ℕ) (lent : Option (List Lending)) (h : HeaderOf) → IsOwnGround V.Area.content V.Spawner.acts disks folder h manner.machine lent (V.Devices.lendings devices.old) ground
        → MayRun disks folder h manner.machine → IsOpened V.Watchdog.path V.Watchdog.rested asked watchdog
        → RestsOwn V.Watchdog.path V.Watchdog.rested asked
        (HasLived D.Daemon.stands D.Daemon.commands (record { content = V.Area.content; faults = V.Area.faults; acts = V.Spawner.acts }) disks folder lent (V.Devices.lendings devices.new) manner.machine) result.3 result.0 }
    ensures owes { (disks : Disks) (folder : List ℕ) (lent : Option (List Lending)) (first : Option (List ℕ)) (h : HeaderOf) → IsOwnGround V.Area.content V.Spawner.acts disks folder h manner.machine lent (V.Devices.lendings devices.old) ground
        → MayRun disks folder h manner.machine → HeaderBegins first (S.left source) reader h
        → OwesOwn D.Daemon.stands D.Daemon.commands (record { content = V.Area.content; faults = V.Area.faults; acts = V.Spawner.acts }) disks folder manner first (S.left result.1) (K.taken sink) (K.taken result.2) (S.faults source) (S.faults result.1)
        (K.faults sink) (K.faults result.2) (V.Devices.faults devices.old) (V.Devices.faults devices.new) lent (V.Devices.lendings devices.new) result.0 }
{
    play_as::<D, Brand, S, K, V, R>(
        rt, alloc, ground, watchdog, manner, source, reader, sink, devices,
    )
}

/// Has writes answered once the storage has them, if that is wanted.
fn sync_if<V: StandingDevices>(syncs: bool, devices: &mut V)
    ensures same { V.Devices.disks devices.new ≡ V.Devices.disks devices.old }
    ensures lendings { V.Devices.lendings devices.new ≡ V.Devices.lendings devices.old }
    ensures count { V.Devices.faults devices.new ≡ V.Devices.faults devices.old }
{
    if syncs {
        devices.sync_writes();
    }
}

/// What the machine begins with, in this folder: the folder is claimed, what stands there is seen to, and the watchdog device is opened last. After an
/// `Err` no area is handed out, and no such device is open.
fn begin<V: StandingDevices>(
    alloc: Global,
    folder: &str,
    watchdog: Option<&str>,
    manner: OwnManner,
    header: Header,
    devices: &mut V,
) -> Result<(OwnGround<V>, Option<V::Watchdog>), NoPlace>
    requires header { IsHeader header }
    requires machine { (1 ≤ manner.machine) × (manner.machine ≤ header.machines) }
    ensures ok { IfOk result (λ own. IsOwnGround V.Area.content V.Spawner.acts (V.Devices.disks devices.old) folder.now header manner.machine (V.Devices.lendings devices.old) (V.Devices.lendings devices.new) own.0) }
    ensures opened { IfOk result (λ own. IsOpened V.Watchdog.path V.Watchdog.rested (option_map (λ w. w.now) watchdog.entry) own.1) }
    ensures place { OnOk result (IsPlaceOf (V.Devices.disks devices.old) folder.now header) }
    ensures bars { IfErr result (Bars (V.Devices.disks devices.old) folder.now header manner.machine (V.Devices.faults devices.old) (V.Devices.faults devices.new)) }
    ensures later { V.Devices.faults devices.old ≤ V.Devices.faults devices.new }
{
    take_place(alloc, folder, &header, manner.machine, devices)?;
    sync_if(manner.syncs, devices);
    prepare_own(alloc, header, folder, manner.machine, watchdog, devices)
}

/// Why this header is none for the machine of this number, if it is none: it has no such machine, or sessions that would be joined at moment 0.
fn header_refusal(header: &Header, machine: u32) -> Option<Refusal>
    ensures { result ≡ header_refusal header.now machine }
{
    if header.machines < machine {
        Some(Refusal::MissingMachine)
    } else if header.sessions.as_slice().is_empty() {
        None
    } else {
        Some(Refusal::Syntax)
    }
}

/// Runs the machine of a header that was read, where its place can be had.
fn play_header<
    D: Teller + Send,
    S: Source + Send,
    K: Sink + Send,
    V: StandingDevices,
    R: Threads + Wait + time::Clock + Eprint + Sync,
>(
    rt: &R,
    alloc: Global,
    folder: &str,
    watchdog: Option<&str>,
    manner: OwnManner,
    source: S,
    reader: LineReader,
    header: Header,
    sink: K,
    devices: &mut V,
) -> (Lived, S, K, Option<V::Watchdog>)
where
    V::Area: Send,
    requires header { IsHeader header }
    requires machine { 1 ≤ manner.machine }
    requires reads { (h : HeaderOf) → IsHeader h → ReadsCommands D.Daemon.commands h }
    requires ends { EndStands (S.left source) reader }
    ensures rests { RestsOwn V.Watchdog.path V.Watchdog.rested (option_map (λ w. w.now) watchdog.entry)
        (HasLived D.Daemon.stands D.Daemon.commands (record { content = V.Area.content; faults = V.Area.faults; acts = V.Spawner.acts }) (V.Devices.disks devices.old) folder.now (V.Devices.lendings devices.old) (V.Devices.lendings devices.new) manner.machine) result.3 result.0 }
    ensures owes { (first : Option (List ℕ)) → HeaderBegins first (S.left source) reader header
        → OwesOwn D.Daemon.stands D.Daemon.commands (record { content = V.Area.content; faults = V.Area.faults; acts = V.Spawner.acts }) (V.Devices.disks devices.old) folder.now manner first (S.left result.1) (K.taken sink) (K.taken result.2) (S.faults source) (S.faults result.1)
        (K.faults sink) (K.faults result.2) (V.Devices.faults devices.old) (V.Devices.faults devices.new) (V.Devices.lendings devices.old) (V.Devices.lendings devices.new) result.0 }
{
    let mut sink = sink;
    match header_refusal(&header, manner.machine) {
        Some(why) => {
            let number = reader.line().number;
            let lived = put_refusal(alloc, &mut sink, number, why);
            (lived, source, sink, None)
        }
        None => match begin::<V>(alloc, folder, watchdog, manner, header, devices) {
            Ok((ground, watchdog)) => play_ground::<D, S, K, V, R>(
                rt, alloc, ground, watchdog, manner, source, reader, sink, devices,
            ),
            Err(why) => {
                let lived = put_no_place(alloc, &mut sink, why);
                (lived, source, sink, None)
            }
        },
    }
}

/// Plays a script for one machine: reads its header from the source, claims the machine in the folder, sees that the header's disks and areas stand
/// there, opens the watchdog device at this path, if one is given, runs the machine, gives it the script's lines as they are read, and puts out what it
/// replies, as it comes.
///
/// Where the header has session lines or no such machine, its last line is refused. Where something does not stand, it is put out what, and nothing is
/// written. A line for another machine is refused.
///
/// The machine ends when the script has ended, no child of it runs and nothing of it is unanswered. Where it has ended in order the watchdog device is
/// told to rest. The source and the sink come back, and this device, if it was opened.
pub fn play_own<
    D: Teller + Send,
    S: Source + Send,
    K: Sink + Send,
    V: StandingDevices,
    R: Threads + Wait + time::Clock + Eprint + Sync,
>(
    rt: &R,
    alloc: Global,
    folder: &str,
    watchdog: Option<&str>,
    manner: OwnManner,
    source: S,
    sink: K,
    devices: &mut V,
) -> (Lived, S, K, Option<V::Watchdog>)
where
    V::Area: Send,
    requires machine { 1 ≤ manner.machine }
    requires reads { (h : HeaderOf) → IsHeader h → ReadsCommands D.Daemon.commands h }
    requires headers { HeadersAreGood whole_language }
    ensures rests { RestsOwn V.Watchdog.path V.Watchdog.rested (option_map (λ w. w.now) watchdog.entry)
        (HasLived D.Daemon.stands D.Daemon.commands (record { content = V.Area.content; faults = V.Area.faults; acts = V.Spawner.acts }) (V.Devices.disks devices.old) folder.now (V.Devices.lendings devices.old) (V.Devices.lendings devices.new) manner.machine) result.3 result.0 }
    ensures owes { OwesOwn D.Daemon.stands D.Daemon.commands (record { content = V.Area.content; faults = V.Area.faults; acts = V.Spawner.acts }) (V.Devices.disks devices.old) folder.now manner (S.left source) (S.left result.1) (K.taken sink) (K.taken result.2) (S.faults source) (S.faults result.1)
        (K.faults sink) (K.faults result.2) (V.Devices.faults devices.old) (V.Devices.faults devices.new) (V.Devices.lendings devices.old) (V.Devices.lendings devices.new) result.0 }
{
    let mut source = source;
    let mut sink = sink;
    let mut reader = match LineReader::new(alloc) {
        Ok(reader) => reader,
        Err(_) => return (Lived::NoMemory, source, sink, None),
    };
    match read_header(alloc, &mut source, &mut reader) {
        Err(ReadError::Failed) => (Lived::ReadFault, source, sink, None),
        Err(ReadError::NoMemory) => (Lived::NoMemory, source, sink, None),
        Ok(Err((number, why))) => {
            let lived = put_refusal(alloc, &mut sink, number, why);
            (lived, source, sink, None)
        }
        Ok(Ok(header)) => play_header::<D, S, K, V, R>(
            rt, alloc, folder, watchdog, manner, source, reader, header, sink, devices,
        ),
    }
}
