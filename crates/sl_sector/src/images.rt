//! Sectors one after another, as a read gives them.

ghost use Rattle.sha2.specs.Sha256.{sha256};
ghost use Rattle.sl_sector.specs.SectorLayouts.{IsSectorSize, Spells};
ghost use Rattle.sl_sector.specs.Images.{record_at, sector_at, sector_in};
ghost use Rattle.std.specs.Arc.{arc_value};
ghost use Rattle.std.specs.Option.{option_copied, option_map};
ghost use Rattle.std.specs.Prelude.{flat_map, length, IfOk, IfSome, OnErr, OnOk, [], ◌*◌, ◌++◌, ◌≡◌};

use crate::image::Image;
use crate::{Bad, Rec};
use std::alloc::{AllocError, Global};
use std::marker::Model;
use std::sync::Arc;

/// Sectors of one size, seen as the size and their bytes, one after another. They are shared with the disk that they were sampled from.
#[derive(Drop)]
pub struct Images {
    size: u32,
    items: Vec<Arc<Image>>,
}

impl Model for Images {
    ghost use Rattle.sl_sector.specs.SectorLayouts.{IsSectorSize};
    ghost use Rattle.sl_sector.specs.Images.{Run};
    ghost use Rattle.std.specs.Arc.{arc_value};
    ghost use Rattle.std.specs.List.{list_all};
    ghost use Rattle.std.specs.Prelude.{flat_map, length, true, ◌==◌, ◌≡◌};

    ghost Value = { Run };

    ghost view = { λ s. record { size = s.size; bytes = flat_map (λ m. arc_value m) s.items.items } };

    ghost invariant = { λ s. IsSectorSize s.size × (list_all (λ m. length (arc_value m) == s.size) s.items.items ≡ true) };
}

impl Images {
    /// An empty list of sectors of this size, in bytes.
    pub fn new(alloc: Global, size: u32) -> Images
        requires { IsSectorSize size }
        ensures { result ≡ record { size = size; bytes = [] } }
    {
        Images {
            size,
            items: Vec::new(alloc),
        }
    }

    /// One more sector, which is shared. An `Err` is want of memory, and changes nothing.
    pub fn push(&mut self, image: &Arc<Image>) -> Result<(), AllocError>
        requires { length (arc_value image.now) ≡ self.old.size }
        ensures ok { OnOk result (self.new ≡ record self.old { bytes = self.old.bytes ++ arc_value image.now }) }
        ensures err { OnErr result (self.new ≡ self.old) }
    {
        let shared = image.clone()?;
        self.items.push(shared)?;
        Ok(())
    }

    /// How many bytes each sector has: 512 or 4096.
    pub fn size(&self) -> u32
        ensures { result ≡ self.now.size }
    {
        self.size
    }

    /// How many sectors there are.
    pub fn len(&self) -> usize
        ensures { result * self.now.size ≡ length self.now.bytes }
    {
        count(&self.items)
    }

    /// Sector k, counted from 0, to be read or shared, if there are so many.
    pub fn sector(&self, k: usize) -> Option<&Arc<Image>>
        ensures { option_map (λ image. arc_value image) (option_copied result) ≡ sector_in self.now k }
    {
        if k < count(&self.items) {
            Some(&self.items[k])
        } else {
            None
        }
    }

    /// What sector k, counted from 0, spells, or why it spells nothing, if there are so many. Nothing is hashed.
    pub fn record(&self, k: usize) -> Option<Result<Rec, Bad>>
        ensures found { result ≡ record_at self.now k }
        // a record that is found is the one whose spelling the sector's bytes are, and keeps its rules
        ensures spells { IfSome result (λ found. IfOk found (λ r. Spells sha256 (sector_at self.now k) r)) }
    {
        match self.sector(k) {
            None => None,
            Some(image) => Some(image.record()),
        }
    }

    /// The sectors, to be read or shared.
    pub fn as_slice(&self) -> &[Arc<Image>]
        ensures { flat_map (λ image. arc_value image) result.now ≡ self.now.bytes }
    {
        &self.items
    }

    /// Adds the bytes of all. An `Err` is want of memory.
    pub fn push_bytes(&self, out: &mut Vec<u8>) -> Result<(), AllocError>
        ensures { OnOk result (out.new.items ≡ out.old.items ++ self.now.bytes) }
    {
        let images = self.as_slice();
        for image in images {
            image.push_bytes(out)?;
        }
        Ok(())
    }
}

/// How many there are.
fn count(items: &Vec<Arc<Image>>) -> usize
    ensures { result ≡ length items.now.items }
{
    items.len()
}
