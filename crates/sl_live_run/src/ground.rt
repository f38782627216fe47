//! What a live run begins with.

ghost use Rattle.sl_live_run.specs.Causes.{Explains};
ghost use Rattle.sl_live_run.specs.Grounds.{IsGroundOf};
ghost use Rattle.sl_live_run.specs.Lent.{AreAllHad};
ghost use Rattle.sl_live_run.specs.Runs.{disks_in};
ghost use Rattle.sl_run.specs.Headers.{IsHeader};
ghost use Rattle.sl_outside.specs.Acts.{Tells};
ghost use Rattle.std.specs.Prelude.{All, IfErr, IfOk, [], map, ◌≤◌};

use crate::clocks::{start_clocks, with_readings};
use crate::disks::make_disks;
use crate::machine_sites::prepare_all;
use sl_io::Failed;
use sl_live_machine::Parts;
use sl_outside::LiveDevices;
use sl_run::Header;
use sl_world_state::Site;
use std::alloc::{AllocError, Global};
use thiserror::Error;

/// A machine that is to run: its site, and what it runs on.
#[derive(Drop)]
pub struct Prepared<V: LiveDevices> {
    pub site: Site,
    pub parts: Parts<V::Clock, V::Spawner, V::Device, V::Area>,
}

/// What a live run begins with: its header, the machines in order, and the gate round the sector calls of all of them.
#[derive(Drop)]
pub struct Ground<V: LiveDevices> {
    pub header: Header,
    pub machines: Vec<Prepared<V>>,
    pub gate: V::Gate,
}

/// Why a live run can't begin: its disks can't be made, or there is no memory.
#[derive(Clone, Copy, Debug, PartialEq, Eq, Error)]
pub enum NoGround {
    /// A disk can't be made, or a sector of an area can't be written.
    #[error("area fault")]
    AreaFault,
    /// There is no memory for its beginning.
    #[error("out of memory")]
    NoMemory,
}

impl From<Failed> for NoGround {
    ghost use Rattle.sl_live_run.specs.declared.ground.NoGround.{NoGround};
    ghost use Rattle.std.specs.Prelude.{◌≡◌};

    ghost from_gives = { λ _ e. e ≡ NoGround.AreaFault };

    fn from(_: Failed) -> NoGround {
        NoGround::AreaFault
    }
}

impl From<AllocError> for NoGround {
    ghost use Rattle.sl_live_run.specs.declared.ground.NoGround.{NoGround};
    ghost use Rattle.std.specs.Prelude.{◌≡◌};

    ghost from_gives = { λ _ e. e ≡ NoGround.NoMemory };

    fn from(_: AllocError) -> NoGround {
        NoGround::NoMemory
    }
}

/// Makes the disks of a header in a folder that was entered, writes what stands on them at moment 0, and gets all that its machines run on.
///
/// An `Ok` has the header with the clocks' readings in place of its `clock` lines, and a machine for each of its machines, in order; the devices handed
/// out just the areas and the spawner of each, one machine behind the other. An `Err` is a fault of the devices, whose count then rose, or want of memory; no area is handed out then, and disks that were made stay. No
/// spawner was asked for anything.
pub fn prepare<V: LiveDevices>(
    alloc: Global,
    header: Header,
    folder: &str,
    anew: bool,
    devices: &mut V,
) -> Result<Ground<V>, NoGround>
    requires { IsHeader header }
    ensures ok { IfOk result (IsGroundOf V.Clock.last V.Spawner.running V.Spawner.acts V.Device.last V.Device.fire header) }
    ensures unasked { IfOk result (λ g. All (λ p. Tells (V.Spawner.acts p.parts.spawner) []) g.machines.items) }
    ensures had { IfOk result (λ g. AreAllHad V.Area.content folder.now g.header 1 (map (λ p. disks_in p.parts) g.machines.items) (V.Devices.lendings devices.old) (V.Devices.lendings devices.new)) }
    ensures err { IfErr result (Explains (V.Devices.faults devices.old) (V.Devices.faults devices.new)) }
    ensures later { V.Devices.faults devices.old ≤ V.Devices.faults devices.new }
{
    make_disks(&header, folder, anew, devices)?;
    let started = start_clocks(alloc, header.machines, devices)?;
    let header = with_readings(header, started.readings);
    let machines = prepare_all(alloc, &header, folder, started.clocks, devices)?;
    Ok(Ground {
        header,
        machines,
        gate: devices.gate(),
    })
}
