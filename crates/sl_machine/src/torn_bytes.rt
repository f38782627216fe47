//! Writes that take effect in part.

ghost use Rattle.sl_world_state.specs.KeptWorld.{flight_of_machine, sector_of_call};
ghost use Rattle.sl_machine.specs.CallWrites.{LeavesTorn};
ghost use Rattle.sl_machine.specs.KeptParts.{kept_state};
ghost use Rattle.std.specs.Arc.{arc_value};
ghost use Rattle.std.specs.Prelude.{IfOk, IfSome, None, drop, is_none, true, length, option_map, take, unwrap_or, [], ◌++◌, ◌+◌, ◌≡◌};

use crate::calls::{Landing, sector_at};
use crate::kept_world::Kept;
use crate::locks::LockTable;
use sl_disks::Disks;
use sl_sector::Image;
use sl_text::Bytes;
use std::alloc::{AllocError, Global};
use std::sync::Arc;

/// The bytes of a sector. An `Err` is want of memory.
fn bytes_of(alloc: Global, image: &Image) -> Result<Vec<u8>, AllocError>
    ensures { IfOk result (λ bytes. bytes.items ≡ image.now) }
{
    let mut bytes = Vec::new(alloc);
    image.push_bytes(&mut bytes)?;
    Ok(bytes)
}

/// The bytes of a sector, if there is one. An `Err` is want of memory.
fn bytes_of_some(alloc: Global, image: Option<Arc<Image>>) -> Result<Vec<u8>, AllocError>
    ensures { IfOk result (λ bytes. bytes.items ≡ unwrap_or (option_map (λ m. arc_value m) image) []) }
{
    match image {
        None => Ok(Vec::new(alloc)),
        Some(image) => bytes_of(alloc, &image),
    }
}

/// The first bytes of a sector, then the given ones, then what was there. An `Err` is want of memory.
fn torn_bytes(
    alloc: Global,
    whole: &Image,
    kept: u32,
    given: &Bytes,
    before: &[u8],
) -> Result<Vec<u8>, AllocError>
    ensures { IfOk result (λ bytes. bytes.items ≡ take kept whole.now ++ given.now ++ drop (kept + length given.now) before.now) }
{
    let mut bytes = bytes_of(alloc, whole)?;
    bytes.truncate(kept as usize);
    bytes.extend_from_slice(given.as_slice())?;
    let from = (kept as usize).saturating_add(given.len());
    if from < before.len() {
        bytes.extend_from_slice(&before[from..])?;
    }
    Ok(bytes)
}

/// The sector of these bytes, which are read once. An `Err` is want of memory, or of bytes that are no sector of this size.
fn sector_of(alloc: Global, sector: u32, bytes: Vec<u8>) -> Result<Arc<Image>, AllocError>
    ensures bytes { IfOk result (λ image. arc_value image ≡ bytes.items) }
    ensures sized { IfOk result (λ image. length (arc_value image) ≡ sector) }
{
    let size = bytes.len();
    if size != sector as usize || size < 512 || 4096 < size {
        return Err(AllocError);
    }
    Ok(Arc::new(alloc, Image::of_bytes(Bytes::new(bytes)))?)
}

/// What a write leaves that takes effect in part. An `Err` is want of memory, or of bytes that are no sector. Nothing that is seen changes.
fn torn_sector(
    alloc: Global,
    disks: &mut Disks,
    sector: u32,
    landing: &Landing,
    kept: u32,
    given: &Bytes,
) -> Result<Arc<Image>, AllocError>
    ensures bytes { IfOk result (λ image. arc_value image
        ≡ take kept (arc_value landing.now.image) ++ given.now ++ drop (kept + length given.now) (sector_of_call disks.old.sectors landing.now.place 0)) }
    ensures sized { IfOk result (λ image. length (arc_value image) ≡ sector) }
    ensures same { disks.new ≡ disks.old }
{
    let before = sector_at(disks, landing.place, 0)?;
    let before = bytes_of_some(alloc, before)?;
    let bytes = torn_bytes(alloc, &landing.image, kept, given, &before)?;
    sector_of(alloc, sector, bytes)
}

impl<L: LockTable> Kept<L> {
    /// What a write leaves that takes effect in part, if it is in flight. An `Err` is want of memory, or of a call that leaves no sector.
    /// Nothing that is seen changes.
    pub fn torn(
        &mut self,
        machine: u32,
        call: u64,
        kept: u32,
        given: &Bytes,
    ) -> Result<Option<Landing>, AllocError>
        ensures some { IfOk result (λ l. IfSome l (λ x. LeavesTorn (kept_state L.locks self.old) machine call kept given.now x.place (arc_value x.image))) }
        ensures none { IfOk result (λ l. is_none l ≡ true → flight_of_machine (kept_state L.locks self.old) machine call ≡ None) }
        ensures same { kept_state L.locks self.new ≡ kept_state L.locks self.old }
        ensures disks { self.new.disks ≡ self.old.disks }
    {
        let alloc = *self.machines.allocator();
        let sector = self.sector();
        match self.landing(machine, call)? {
            None => Ok(None),
            Some(landing) => {
                let image = torn_sector(alloc, &mut self.disks, sector, &landing, kept, given)?;
                Ok(Some(Landing {
                    place: landing.place,
                    image,
                }))
            }
        }
    }
}
