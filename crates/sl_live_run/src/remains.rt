//! What machines left, on its way back to the devices.

ghost use Rattle.sl_live_run.specs.Lent.{AreAllBack, IsBack};
ghost use Rattle.sl_live_run.specs.Runs.{remains_of};
ghost use Rattle.std.specs.Prelude.{map};

use crate::disks::give_back;
use crate::run::Remains;
use sl_live_machine::Spawners;
use sl_outside::LiveDevices;

/// What a machine left goes back to the devices: its areas, those that were handed out last first, and its spawners.
fn give_left<V: LiveDevices>(remains: Remains<V::Area, V::Spawner>, devices: &mut V)
    ensures { IsBack V.Area.content V.Area.faults V.Spawner.acts (remains_of remains) (V.Devices.lendings devices.old) (V.Devices.lendings devices.new) }
{
    let Remains {
        delta,
        resource,
        spawners,
    } = remains;
    let Spawners {
        signals,
        starts,
        killed: _,
    } = spawners;
    give_back(delta, resource, devices);
    devices.spawner_back(signals);
    devices.spawner_back(starts);
}

/// All that machines left goes back to the devices, one machine behind the other.
pub fn give_all_back<V: LiveDevices>(remains: Vec<Remains<V::Area, V::Spawner>>, devices: &mut V)
    ensures { AreAllBack V.Area.content V.Area.faults V.Spawner.acts (map remains_of remains.items) (V.Devices.lendings devices.old) (V.Devices.lendings devices.new) }
{
    for left in remains {
        give_left(left, devices);
    }
}
