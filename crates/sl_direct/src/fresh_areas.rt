//! Areas that are initialised.
ghost use Rattle.sl_area.specs.AreaSizes.{IsGeometry, layout_of};
ghost use Rattle.sl_area.specs.AreaLayout.{block_offset, block_sectors};
ghost use Rattle.sl_area.specs.Roles.{IsBase, place_at};
ghost use Rattle.sl_direct.specs.Actions.{IsAction};
ghost use Rattle.sl_direct.specs.FreshAreas.{block_write, block_writes, delta_write, leader_write, lockspace_writes, request_write, resource_writes, value_write, write_of};
ghost use Rattle.sl_direct.specs.HalfDone.{BrokeOff, HasActed, Wrote};
ghost use Rattle.sl_direct.specs.declared.action.Action.TheVariants.{InitLockspace, InitResource};
ghost use Rattle.sl_direct.specs.declared.action.Directed.TheVariants.{AreaFault};
ghost use Rattle.sl_sector.specs.Records.{IsRecord};
ghost use Rattle.sl_sector.specs.SectorLayouts.{IsSectorSize};
ghost use Rattle.sl_text.specs.Names.{is_name};
ghost use Rattle.sl_io.specs.FaultCauses.{HasCause, Rose};
ghost use Rattle.std.specs.Prelude.{IsTrue, OnErr, OnOk, [], ◌∷◌, ◌≡◌, ◌≤◌};

use crate::LONGEST_SECTOR;
use crate::action::Directed;
use crate::fresh_records::{
    fresh_block_at, fresh_delta, fresh_leader, leader_record, no_request, no_value,
};
use crate::lines::{push_lockspace_line, push_resource_line};
use sl_area::{Area, Geometry, Place};
use sl_io::Failed;
use sl_sector::Rec;
use sl_text::Name;
use sl_trace::{LockspaceArg, ResourceArg};

/// Writes the sector of a record. After an `Err` the sector may be torn.
pub fn write_record<A: Area>(area: &mut A, at: Place, rec: &Rec) -> Result<(), Failed>
    requires size { IsSectorSize at.size }
    requires rules { IsRecord rec.now }
    ensures ok { OnOk result (Wrote (write_of at.size at.offset rec.now ∷ []) (A.content area.old) (A.content area.new)) }
    ensures failed { OnErr result (BrokeOff (write_of at.size at.offset rec.now ∷ []) (A.content area.old) (A.content area.new)) }
    ensures cause { HasCause (A.faults area.old) (A.faults area.new) result }
{
    let mut longest = [0; LONGEST_SECTOR];
    let sector = &mut longest[..at.size() as usize];
    rec.encode_into(sector);
    area.write(at, sector)
}

/// Writes an id's record that was never claimed.
fn write_delta<A: Area>(
    area: &mut A,
    geometry: Geometry,
    lockspace: Name,
    base: u64,
    id: u32,
) -> Result<(), Failed>
    requires sizes { IsGeometry geometry }
    requires base { IsBase geometry base }
    requires named { IsTrue (is_name lockspace) }
    requires id { (1 ≤ id) × (id ≤ geometry.hosts) }
    ensures ok { OnOk result (Wrote (delta_write (layout_of geometry) lockspace base id ∷ []) (A.content area.old) (A.content area.new)) }
    ensures failed { OnErr result (BrokeOff (delta_write (layout_of geometry) lockspace base id ∷ []) (A.content area.old) (A.content area.new)) }
    ensures cause { HasCause (A.faults area.old) (A.faults area.new) result }
{
    let at = geometry.delta_place(base, id);
    write_record(area, at, &Rec::DeltaIs(fresh_delta(lockspace, id)))
}

/// Writes the sectors of a lockspace. After an `Err` a front of them was written, and the next one may be torn.
pub(crate) fn write_lockspace<A: Area>(
    area: &mut A,
    geometry: Geometry,
    lockspace: Name,
    base: u64,
) -> Result<(), Failed>
    requires sizes { IsGeometry geometry }
    requires base { IsBase geometry base }
    requires named { IsTrue (is_name lockspace) }
    ensures ok { OnOk result (Wrote (lockspace_writes (layout_of geometry) lockspace base) (A.content area.old) (A.content area.new)) }
    ensures failed { OnErr result (BrokeOff (lockspace_writes (layout_of geometry) lockspace base) (A.content area.old) (A.content area.new)) }
    ensures cause { HasCause (A.faults area.old) (A.faults area.new) result }
{
    for before in 0..geometry.hosts() {
        write_delta(area, geometry, lockspace, base, before + 1)?;
    }
    Ok(())
}

/// Of the sectors that the blocks have, the place of the `k`-th.
#[tactic(auto, using(crate::proofs::FreshLaws::pair_of_sector))]
fn block_place(geometry: Geometry, base: u64, k: u32) -> Place
    requires base { IsBase geometry base }
    requires sector { (1 ≤ k) × (k ≤ block_sectors (layout_of geometry)) }
    ensures { result ≡ place_at geometry (block_offset (layout_of geometry) base k) }
{
    let _sectors = geometry.block_sectors();
    if geometry.is_paired() {
        geometry.pair_place(base, (k + 1) / 2, k % 2 == 1)
    } else {
        geometry.block_place(base, k)
    }
}

/// Writes a block that has no ballot to the `k`-th of the sectors that the blocks have.
fn write_block<A: Area>(
    area: &mut A,
    geometry: Geometry,
    lockspace: Name,
    resource: Name,
    base: u64,
    k: u32,
) -> Result<(), Failed>
    requires sizes { IsGeometry geometry }
    requires base { IsBase geometry base }
    requires named { IsTrue (is_name lockspace) × IsTrue (is_name resource) }
    requires sector { (1 ≤ k) × (k ≤ block_sectors (layout_of geometry)) }
    ensures ok { OnOk result (Wrote (block_write (layout_of geometry) lockspace resource base k ∷ []) (A.content area.old) (A.content area.new)) }
    ensures failed { OnErr result (BrokeOff (block_write (layout_of geometry) lockspace resource base k ∷ []) (A.content area.old) (A.content area.new)) }
    ensures cause { HasCause (A.faults area.old) (A.faults area.new) result }
{
    let at = block_place(geometry, base, k);
    write_record(area, at, &fresh_block_at(geometry, lockspace, resource, k))
}

/// Writes the blocks of all hosts.
fn write_blocks<A: Area>(
    area: &mut A,
    geometry: Geometry,
    lockspace: Name,
    resource: Name,
    base: u64,
) -> Result<(), Failed>
    requires sizes { IsGeometry geometry }
    requires base { IsBase geometry base }
    requires named { IsTrue (is_name lockspace) × IsTrue (is_name resource) }
    ensures ok { OnOk result (Wrote (block_writes (layout_of geometry) lockspace resource base) (A.content area.old) (A.content area.new)) }
    ensures failed { OnErr result (BrokeOff (block_writes (layout_of geometry) lockspace resource base) (A.content area.old) (A.content area.new)) }
    ensures cause { HasCause (A.faults area.old) (A.faults area.new) result }
{
    for before in 0..geometry.block_sectors() {
        write_block(area, geometry, lockspace, resource, base, before + 1)?;
    }
    Ok(())
}

/// Writes the cleared request.
fn write_request<A: Area>(area: &mut A, geometry: Geometry, base: u64) -> Result<(), Failed>
    requires sizes { IsGeometry geometry }
    requires base { IsBase geometry base }
    ensures ok { OnOk result (Wrote (request_write (layout_of geometry) base ∷ []) (A.content area.old) (A.content area.new)) }
    ensures failed { OnErr result (BrokeOff (request_write (layout_of geometry) base ∷ []) (A.content area.old) (A.content area.new)) }
    ensures cause { HasCause (A.faults area.old) (A.faults area.new) result }
{
    let at = geometry.request_place(base);
    write_record(area, at, &Rec::RequestIs(no_request()))
}

/// Writes the value without a byte.
fn write_value<A: Area>(area: &mut A, geometry: Geometry, base: u64) -> Result<(), Failed>
    requires sizes { IsGeometry geometry }
    requires base { IsBase geometry base }
    ensures ok { OnOk result (Wrote (value_write (layout_of geometry) base ∷ []) (A.content area.old) (A.content area.new)) }
    ensures failed { OnErr result (BrokeOff (value_write (layout_of geometry) base ∷ []) (A.content area.old) (A.content area.new)) }
    ensures cause { HasCause (A.faults area.old) (A.faults area.new) result }
{
    let at = geometry.value_place(base);
    write_record(area, at, &Rec::ValueIs(no_value()))
}

/// Writes the leader that was never held.
fn write_leader<A: Area>(
    area: &mut A,
    geometry: Geometry,
    lockspace: Name,
    resource: Name,
    base: u64,
) -> Result<(), Failed>
    requires sizes { IsGeometry geometry }
    requires base { IsBase geometry base }
    requires named { IsTrue (is_name lockspace) × IsTrue (is_name resource) }
    ensures ok { OnOk result (Wrote (leader_write (layout_of geometry) lockspace resource base ∷ []) (A.content area.old) (A.content area.new)) }
    ensures failed { OnErr result (BrokeOff (leader_write (layout_of geometry) lockspace resource base ∷ []) (A.content area.old) (A.content area.new)) }
    ensures cause { HasCause (A.faults area.old) (A.faults area.new) result }
{
    let leader = fresh_leader(geometry, lockspace, resource);
    write_record(
        area,
        geometry.leader_place(base),
        &leader_record(geometry, leader),
    )
}

/// Writes the sectors of a resource, the leader last. After an `Err` a front of them was written, and the next one may be torn.
pub fn write_resource<A: Area>(
    area: &mut A,
    geometry: Geometry,
    lockspace: Name,
    resource: Name,
    base: u64,
) -> Result<(), Failed>
    requires sizes { IsGeometry geometry }
    requires base { IsBase geometry base }
    requires named { IsTrue (is_name lockspace) × IsTrue (is_name resource) }
    ensures ok { OnOk result (Wrote (resource_writes (layout_of geometry) lockspace resource base) (A.content area.old) (A.content area.new)) }
    ensures failed { OnErr result (BrokeOff (resource_writes (layout_of geometry) lockspace resource base) (A.content area.old) (A.content area.new)) }
    ensures cause { HasCause (A.faults area.old) (A.faults area.new) result }
{
    write_request(area, geometry, base)?;
    write_blocks(area, geometry, lockspace, resource, base)?;
    write_value(area, geometry, base)?;
    write_leader(area, geometry, lockspace, resource, base)?;
    Ok(())
}

/// Initialises the area of a lockspace. Its line is made first, so that want of memory leaves the area as it was.
pub(crate) fn init_lockspace<A: Area>(
    area: &mut A,
    lockspace: &LockspaceArg,
    geometry: Geometry,
    out: &mut Vec<u8>,
) -> Directed
    requires action { IsAction (InitLockspace lockspace.now geometry) }
    requires first { out.old.items ≡ [] }
    ensures acted { HasActed (InitLockspace lockspace.now geometry) (A.content area.old) (A.content area.new) out.new.items result }
    ensures cause { result ≡ AreaFault → Rose (A.faults area.old) (A.faults area.new) }
    ensures later { A.faults area.old ≤ A.faults area.new }
{
    match push_lockspace_line(out, lockspace, geometry) {
        Ok(()) => match write_lockspace(area, geometry, lockspace.name, lockspace.offset) {
            Ok(()) => Directed::Done,
            Err(_) => {
                out.clear();
                Directed::AreaFault
            }
        },
        Err(_) => Directed::NoMemory,
    }
}

/// Initialises the area of a resource, as `init_lockspace` does that of a lockspace.
pub(crate) fn init_resource<A: Area>(
    area: &mut A,
    resource: &ResourceArg,
    geometry: Geometry,
    out: &mut Vec<u8>,
) -> Directed
    requires action { IsAction (InitResource resource.now geometry) }
    requires first { out.old.items ≡ [] }
    ensures acted { HasActed (InitResource resource.now geometry) (A.content area.old) (A.content area.new) out.new.items result }
    ensures cause { result ≡ AreaFault → Rose (A.faults area.old) (A.faults area.new) }
    ensures later { A.faults area.old ≤ A.faults area.new }
{
    match push_resource_line(out, resource, geometry) {
        Ok(()) => {
            match write_resource(
                area,
                geometry,
                resource.lockspace,
                resource.name,
                resource.offset,
            ) {
                Ok(()) => Directed::Done,
                Err(_) => {
                    out.clear();
                    Directed::AreaFault
                }
            }
        }
        Err(_) => Directed::NoMemory,
    }
}
