//! Sectors of an area that are read and told.
ghost use Rattle.sl_area.specs.AreaSizes.{IsGeometry};
ghost use Rattle.sl_area.specs.Roles.{IsBase, place_at};
ghost use Rattle.sl_direct.specs.Actions.{IsStretch};
ghost use Rattle.sl_direct.specs.Lines as texts;
ghost use Rattle.sl_direct.specs.HalfDone.{AreTold, HasActed, IsStopped, IsToldAt};
ghost use Rattle.sl_direct.specs.declared.action.Action.TheVariants.{Dump, ReadLeader};
ghost use Rattle.sl_direct.specs.declared.action.Directed.TheVariants.{AreaFault};
ghost use Rattle.sl_sector.specs.SectorLayouts.{IsSectorSize};
ghost use Rattle.sl_io.specs.FaultCauses.{Rose};
ghost use Rattle.std.specs.Io.KnownBytes.{Keeps};
ghost use Rattle.std.specs.Prelude.{IfErr, IfOk, OnErr, OnOk, [], length, ℕ, ◌%◌, ◌*◌, ◌++◌, ◌/◌, ◌<◌, ◌^◌, ◌∷◌, ◌≡◌, ◌≤◌};

use crate::LONGEST_SECTOR;
use crate::action::Directed;
use crate::lines::{is_its_leader, leader_in_sector, push_leader_line, push_sector_line};
use sl_area::{Area, Geometry, Place};
use sl_text::FilePath;
use sl_trace::ResourceArg;
use std::alloc::AllocError;

/// The sector that begins at an offset.
fn sector_place(geometry: Geometry, offset: u64) -> Place
    requires { (offset % geometry.sector ≡ 0) × (offset < 2 ^ 63) }
    ensures { result ≡ place_at geometry offset }
{
    match geometry.place(offset) {
        Some(place) => place,
        None => unreachable!(),
    }
}

/// Adds the line of the leader that a sector spells, or of none; whether it is the resource's.
fn tell_leader(resource: &ResourceArg, sector: &[u8], out: &mut Vec<u8>) -> Result<bool, AllocError>
    requires { IsSectorSize (length sector.now) }
    ensures ok { OnOk result (out.new.items ≡ out.old.items ++ texts.leader_line resource.now sector.now ++ 10 ∷ []) }
    ensures right { IfOk result (λ right. right ≡ texts.is_its_leader resource.now (texts.leader_in_sector sector.now)) }
    ensures err { OnErr result (out.new.items ≡ out.old.items) }
{
    let found = leader_in_sector(sector);
    push_leader_line(out, resource, &found)?;
    Ok(is_its_leader(resource, &found))
}

/// Tells the leader of a resource.
pub(crate) fn read_leader<A: Area>(
    area: &mut A,
    resource: &ResourceArg,
    geometry: Geometry,
    out: &mut Vec<u8>,
) -> Directed
    requires sizes { IsGeometry geometry }
    requires base { IsBase geometry resource.now.offset }
    requires first { out.old.items ≡ [] }
    ensures acted { HasActed (ReadLeader resource.now geometry) (A.content area.old) (A.content area.new) out.new.items result }
    ensures cause { result ≡ AreaFault → Rose (A.faults area.old) (A.faults area.new) }
    ensures later { A.faults area.old ≤ A.faults area.new }
{
    let mut longest = [0; LONGEST_SECTOR];
    let sector = &mut longest[..geometry.sector() as usize];
    match area.read(geometry.leader_place(resource.offset), 1, sector) {
        Ok(()) => match tell_leader(resource, sector, out) {
            Ok(true) => Directed::Done,
            Ok(false) => Directed::NotTheLeader,
            Err(_) => Directed::NoMemory,
        },
        Err(_) => Directed::AreaFault,
    }
}

/// Reads the sector at an offset, and adds its line.
fn tell_sector<A: Area>(
    area: &mut A,
    geometry: Geometry,
    at: u64,
    out: &mut Vec<u8>,
) -> Result<(), Directed>
    requires sizes { IsGeometry geometry }
    requires place { (at % geometry.sector ≡ 0) × (at < 2 ^ 63) }
    ensures kept { Keeps (A.content area.old) (A.content area.new) }
    ensures ok { OnOk result (IsToldAt (A.content area.old) geometry.sector at out.old.items out.new.items) }
    ensures err { OnErr result (out.new.items ≡ out.old.items) }
    ensures stopped { IfErr result (λ d. IsStopped (A.faults area.old) (A.faults area.new) d) }
    ensures later { A.faults area.old ≤ A.faults area.new }
{
    let mut longest = [0; LONGEST_SECTOR];
    let sector = &mut longest[..geometry.sector() as usize];
    match area.read(sector_place(geometry, at), 1, sector) {
        Ok(()) => match push_sector_line(out, at, sector) {
            Ok(()) => Ok(()),
            Err(_) => Err(Directed::NoMemory),
        },
        Err(_) => Err(Directed::AreaFault),
    }
}

/// Tells the sectors of a stretch, one behind another.
fn tell_sectors<A: Area>(
    area: &mut A,
    offset: u64,
    size: u64,
    geometry: Geometry,
    out: &mut Vec<u8>,
) -> Result<(), Directed>
    requires sizes { IsGeometry geometry }
    requires stretch { IsStretch geometry.sector offset size }
    requires first { out.old.items ≡ [] }
    ensures kept { Keeps (A.content area.old) (A.content area.new) }
    ensures ok { OnOk result (AreTold (A.content area.old) geometry.sector offset (size / geometry.sector) out.new.items) }
    ensures err { OnErr result ((count : ℕ) × (count < size / geometry.sector) × AreTold (A.content area.old) geometry.sector offset count out.new.items) }
    ensures stopped { IfErr result (λ d. IsStopped (A.faults area.old) (A.faults area.new) d) }
    ensures later { A.faults area.old ≤ A.faults area.new }
{
    let sector = u64::from(geometry.sector());
    for number in 0..size / sector {
        tell_sector(area, geometry, offset + sector * number, out)?;
    }
    Ok(())
}

/// Tells the sectors of a stretch.
pub(crate) fn dump<A: Area>(
    area: &mut A,
    path: FilePath,
    offset: u64,
    size: u64,
    geometry: Geometry,
    out: &mut Vec<u8>,
) -> Directed
    requires sizes { IsGeometry geometry }
    requires stretch { IsStretch geometry.sector offset size }
    requires first { out.old.items ≡ [] }
    ensures acted { HasActed (Dump path offset size geometry) (A.content area.old) (A.content area.new) out.new.items result }
    ensures cause { result ≡ AreaFault → Rose (A.faults area.old) (A.faults area.new) }
    ensures later { A.faults area.old ≤ A.faults area.new }
{
    match tell_sectors(area, offset, size, geometry, out) {
        Ok(()) => Directed::Done,
        Err(stopped) => stopped,
    }
}
