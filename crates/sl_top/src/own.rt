//! One machine in a process of its own.

ghost use Rattle.sl_top.specs.Runs.{RestsBehind, RunsOwn};
ghost use Rattle.std.specs.Prelude.{option_map, ◌≡◌, ◌≤◌};

use crate::status::{Status, status_of_live};
use sl_cli::Folder;
use sl_io::{Sink, Source};
use sl_live_play::LiveHost;
use sl_own::{OwnManner, play_own};
use sl_place::StandingDevices;
use sl_play::laws::headers::whole_language_may_play;
use std::alloc::Global;
use std::sync::Wait;
use std::thread::Threads;
use std::time::Clock;

/// Where a machine has its disks and its watchdog device, and how its script is played.
#[derive(Drop)]
pub(crate) struct OwnPlace {
    pub folder: Folder,
    pub watchdog: Option<Folder>,
    pub manner: OwnManner,
}

/// The text of a path, if there is one.
fn text_of(path: &Option<Folder>) -> Option<&str>
    ensures { option_map (λ w. w.now) result ≡ path.entry.now }
{
    match path {
        Some(path) => Some(path.as_str()),
        None => None,
    }
}

/// Runs a machine at this place by the script that the source gives, and puts out what it replied. The watchdog device comes back, if one was opened.
pub(crate) fn own<
    R: Threads + Wait + Clock + Eprint + Sync,
    S: Source + Send,
    K: Sink + Send,
    D: StandingDevices,
>(
    rt: &R,
    alloc: Global,
    place: &OwnPlace,
    source: S,
    sink: K,
    devices: &mut D,
) -> (Status, S, K, Option<D::Watchdog>)
where
    D::Area: Send,
    requires { 1 ≤ place.now.manner.machine }
    ensures owes { RunsOwn (record { content = D.Area.content; faults = D.Area.faults; acts = D.Spawner.acts }) place.now.folder place.now.manner
        (record { left = S.left source; source_faults = S.faults source; taken = K.taken sink; sink_faults = K.faults sink; disks = D.Devices.disks devices.old; lendings = D.Devices.lendings devices.old; device_faults = D.Devices.faults devices.old })
        (record { left = S.left result.1; source_faults = S.faults result.1; taken = K.taken result.2; sink_faults = K.faults result.2; disks = D.Devices.disks devices.new; lendings = D.Devices.lendings devices.new; device_faults = D.Devices.faults devices.new })
        result.0 }
    ensures watchdog { RestsBehind (record { content = D.Area.content; faults = D.Area.faults; acts = D.Spawner.acts }) D.Watchdog.path D.Watchdog.rested place.now.folder place.now.watchdog place.now.manner
        (record { left = S.left source; source_faults = S.faults source; taken = K.taken sink; sink_faults = K.faults sink; disks = D.Devices.disks devices.old; lendings = D.Devices.lendings devices.old; device_faults = D.Devices.faults devices.old })
        (record { left = S.left result.1; source_faults = S.faults result.1; taken = K.taken result.2; sink_faults = K.faults result.2; disks = D.Devices.disks devices.new; lendings = D.Devices.lendings devices.new; device_faults = D.Devices.faults devices.new })
        result.3 result.0 }
{
    whole_language_may_play();
    let (lived, source, sink, watchdog) = play_own::<LiveHost, S, K, D, R>(
        rt,
        alloc,
        place.folder.as_str(),
        text_of(&place.watchdog),
        place.manner,
        source,
        sink,
        devices,
    );
    (status_of_live(lived), source, sink, watchdog)
}
