//! The sectors that a worker has read before.
//!
//! What a sector spells takes its digest to know, and most of what a worker reads it has read before: one area's sectors again and again, and blocks
//! that nobody has used yet, which are the same in every area. So for each place within an area the sector that was read there last is kept, whichever
//! area that was, with what it spells. A sector that has the same bytes is the one that is kept, and only one with other bytes is decoded. What is
//! kept is as large as an area.

ghost use Rattle.sl_sector.specs.SectorLayouts.{IsSectorSize};
ghost use Rattle.std.specs.Arc.{arc_value};
ghost use Rattle.std.specs.Prelude.{IfOk, OnOk, bytes_eq, length, ◌++◌, ◌≡◌};

use sl_area::Geometry;
use sl_sector::{Image, Images};
use sl_text::Bytes;
use std::alloc::{AllocError, Global};
use std::sync::Arc;

/// Whether the sector has these bytes. Its own are written into memory that was taken before. An `Err` is want of memory.
fn has_bytes(scratch: &mut Vec<u8>, image: &Arc<Image>, bytes: &[u8]) -> Result<bool, AllocError>
    ensures { IfOk result (λ same. same ≡ bytes_eq (arc_value image.now) bytes.now) }
{
    scratch.clear();
    image.push_bytes(scratch)?;
    Ok(scratch.as_slice() == bytes)
}

/// A sector of its own with these bytes, which is decoded here. An `Err` is want of memory.
fn decoded(alloc: Global, bytes: &[u8]) -> Result<Arc<Image>, AllocError>
    requires { IsSectorSize (length bytes.now) }
    ensures { IfOk result (λ image. arc_value image ≡ bytes.now) }
{
    let copy = Bytes::from_slice(alloc, bytes)?;
    Ok(Arc::new(alloc, Image::of_bytes(copy))?)
}

/// Keeps a sector for this place. An `Err` is want of memory.
fn keep(
    last: &mut Vec<Option<Arc<Image>>>,
    place: usize,
    image: Arc<Image>,
) -> Result<(), AllocError> {
    while last.len() <= place {
        last.push(None)?;
    }
    last[place] = Some(image);
    Ok(())
}

/// The sectors that were read last, of each place within an area.
#[derive(Drop)]
pub struct ReadBefore {
    last: Vec<Option<Arc<Image>>>,
    scratch: Vec<u8>,
}

impl ReadBefore {
    /// A reader that has read nothing yet. It takes no memory.
    pub fn new(alloc: Global) -> ReadBefore {
        ReadBefore {
            last: Vec::new(alloc),
            scratch: Vec::new(alloc),
        }
    }

    /// Adds the sector that was read at this place: the one that is kept where it has these bytes, else one that is kept from now on. An `Err` is want of
    /// memory.
    fn share(
        &mut self,
        alloc: Global,
        place: usize,
        sector: &[u8],
        images: &mut Images,
    ) -> Result<(), AllocError>
        requires sized { IsSectorSize (length sector.now) }
        requires same { length sector.now ≡ images.old.size }
        ensures { OnOk result (images.new ≡ record images.old { bytes = images.old.bytes ++ sector.now }) }
    {
        if let Some(Some(before)) = self.last.get(place) {
            if has_bytes(&mut self.scratch, before, sector)? {
                return images.push(before);
            }
        }
        let image = decoded(alloc, sector)?;
        images.push(&image)?;
        keep(&mut self.last, place, image)
    }

    /// The sectors of bytes that were read from this offset on: those with the bytes that were read last at their place of an area are shared with that
    /// read, the others are decoded. An `Err` is want of memory, or bytes that are not whole sectors.
    pub fn images(
        &mut self,
        alloc: Global,
        geometry: &Geometry,
        offset: u64,
        bytes: &[u8],
    ) -> Result<Images, AllocError>
        ensures { IfOk result (λ images. images ≡ record { size = geometry.now.sector; bytes = bytes.now }) }
    {
        let size = geometry.sector();
        let mut images = Images::new(alloc, size);
        let mut place = (offset % geometry.area() / u64::from(size)) as usize;
        let mut rest = bytes;
        while !rest.is_empty() {
            if rest.len() < size as usize {
                return Err(AllocError);
            }
            let (sector, behind) = rest.split_at(size as usize);
            self.share(alloc, place, sector, &mut images)?;
            place = place.wrapping_add(1);
            rest = behind;
        }
        Ok(images)
    }
}
