//! Where calls lie.

ghost use Rattle.sl_world_state.specs.ShownWorlds.{is_placed_in, place_at, place_in};
ghost use Rattle.sl_run.specs.Refusals as refusals;
ghost use Rattle.sl_run.specs.Worlds.{mebibyte};
ghost use Rattle.std.specs.Prelude.{IfOk, bytes_eq, nat_le, position, ◌&&◌, ◌*◌, ◌+◌, ◌-◌, ◌/◌, ◌≡◌};

use sl_area::Geometry;
use sl_run::{Disk, Header};
use sl_text::FilePath;
use sl_trace::{Call, Op};
use std::alloc::AllocError;
use std::marker::Model;

/// The place of a sector: that of its disk among the header's, and its number there.
#[derive(Clone, Copy)]
pub struct Place {
    pub disk: usize,
    pub sector: u64,
}

impl Model for Place {
    ghost use Rattle.sl_world_state.specs.KeptWorld.{Place as PlaceState};
    ghost use Rattle.std.specs.Prelude.{refl};

    ghost Value = { PlaceState };

    ghost view = { λ p. record { disk = p.disk; sector = p.sector } };

    ghost inverse = { λ s. record { disk = s.disk; sector = s.sector } };

    ghost inverse_ok = { λ p is. refl };
}

/// The unit of a disk's size.
const MEBIBYTE: u128 = 1 << 20;

/// How many sectors an operation is on: a write's is one.
pub fn sectors_of(op: &Op) -> u32
    ensures { result ≡ refusals.sectors_of op.now }
{
    match op {
        Op::ReadSectors { sectors } => *sectors,
        Op::WriteRecord { record: _ } => 1,
    }
}

/// Where a call's last sector ends, on a disk with such sectors.
fn end_of(sector: u32, call: &Call) -> u128
    ensures { result ≡ call.now.offset + (refusals.sectors_of call.now.op - 1) * sector + sector }
{
    let before = sectors_of(&call.op).saturating_sub(1);
    u128::from(call.offset) + u128::from(before) * u128::from(sector) + u128::from(sector)
}

/// So many mebibytes, in bytes.
fn room_of(mebibytes: u64) -> u128
    ensures { result ≡ mebibytes * mebibyte }
{
    u128::from(mebibytes) * MEBIBYTE
}

/// How many sectors a disk has. An `Err` is of more than memory has room for.
pub(crate) fn sectors_on(geometry: Geometry, disk: &Disk) -> Result<u32, AllocError>
    ensures { IfOk result (λ n. n ≡ disk.now.mebibytes * mebibyte / geometry.sector) }
{
    let sectors = room_of(disk.mebibytes) / u128::from(geometry.sector());
    if sectors < 1 << 32 {
        Ok(sectors as u32)
    } else {
        Err(AllocError)
    }
}

/// Whether this is the disk, and has room up to there.
fn has_room(disk: &Disk, path: FilePath, end: u128) -> bool
    ensures { result ≡ (bytes_eq disk.now.path path && nat_le end (disk.now.mebibytes * mebibyte)) }
{
    disk.path == path && end <= room_of(disk.mebibytes)
}

/// Whether this is the disk.
fn is_disk(disk: &Disk, path: FilePath) -> bool
    ensures { result ≡ bytes_eq disk.now.path path }
{
    disk.path == path
}

/// Whether the last sector of a call lies on its disk.
fn is_placed(header: &Header, call: &Call) -> bool
    ensures { result ≡ is_placed_in header.now call.now }
{
    let end = end_of(header.geometry.sector(), call);
    let path = call.path;
    header
        .disks
        .as_slice()
        .iter()
        .any(|disk| has_room(disk, path, end))
}

/// The place of a disk among the header's.
fn disk_of(header: &Header, path: FilePath) -> Option<usize>
    ensures { result ≡ position (λ d. bytes_eq d.path path) header.now.disks }
{
    let disks = header.disks.as_slice();
    disks.iter().position(|disk| is_disk(disk, path))
}

/// The sector at an offset of a disk.
fn place_at(header: &Header, path: FilePath, offset: u64) -> Option<Place>
    ensures { result ≡ place_at header.now path offset }
{
    let sector = u64::from(header.geometry.sector());
    match disk_of(header, path) {
        None => None,
        Some(disk) => Some(Place {
            disk,
            sector: offset / sector,
        }),
    }
}

/// Where a call lies; none where its last sector lies on no disk.
#[tactic(auto, unfolding(sl_world_state::specs::ShownWorlds::place_in))]
pub fn place_of(header: &Header, call: &Call) -> Option<Place>
    ensures { result ≡ place_in header.now call.now }
{
    if is_placed(header, call) {
        place_at(header, call.path, call.offset)
    } else {
        None
    }
}
