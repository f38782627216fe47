//! What stands on the disks of a world.

ghost use Rattle.sl_disks.specs.Disks.{IsDisks, first_at, first_disks, first_table, kept_on, stands_on};
ghost use Rattle.sl_world_state.specs.Changes.{write_sector};
ghost use Rattle.sl_world_state.specs.KeptWorld.{sector_in};
ghost use Rattle.sl_run.specs.Headers.{IsHeader};
ghost use Rattle.std.specs.Arc.{arc_value};
ghost use Rattle.std.specs.Prelude.{IfOk, IfSome, None, [], length, map, option_map, replicate, unwrap_or, ◌≡◌};

use crate::initial::initial_record;
use crate::place::{Place, sectors_on};
use crate::table::{Table, Tables};
use sl_area::Geometry;
use sl_run::Header;
use sl_sector::Image;
use sl_text::{Bytes, FilePath};
use std::alloc::{AllocError, Global};
use std::marker::Model;
use std::sync::Arc;

/// The disks of a header's world, each seen as its sectors; what nobody touched takes no memory.
#[derive(Drop)]
pub struct Disks {
    header: Header,
    /// The sector of zeros, which all places share that nobody wrote.
    zeros: Arc<Image>,
    /// Of each disk of the header, in order.
    tables: Tables,
}

impl Model for Disks {
    ghost use Rattle.sl_disks.specs.Disks.{DisksState, IsDisks, stands_on};
    ghost use Rattle.std.specs.Arc.{arc_value};
    ghost use Rattle.std.specs.Prelude.{map};

    ghost Value = { DisksState };

    ghost view = { λ d. record { header = d.header; sectors = map (stands_on d.header) d.tables } };

    ghost invariant = { λ d. IsDisks d.header d.tables (arc_value d.zeros) };
}

/// A sector of zeros. An `Err` is want of memory.
#[tactic(auto, using(crate::proofs::InitialLaws::is_size))]
fn zeros(alloc: Global, geometry: Geometry) -> Result<Arc<Image>, AllocError>
    ensures { IfOk result (λ image. arc_value image ≡ replicate geometry.sector 0) }
{
    let bytes = Bytes::new(vec![in alloc; 0; geometry.sector() as usize]?);
    Ok(Arc::new(alloc, Image::of_bytes(bytes))?)
}

/// What stands at a sector at moment 0. An `Err` is want of memory.
#[tactic(auto, using(crate::proofs::InitialLaws::initial_is_record, crate::proofs::InitialLaws::is_size), unfolding(crate::specs::Disks::first_at))]
fn first_sector(
    alloc: Global,
    header: &Header,
    zeros: &Arc<Image>,
    path: FilePath,
    number: u32,
) -> Result<Arc<Image>, AllocError>
    requires lawful { IsHeader header.now }
    requires zeros { arc_value zeros.now ≡ replicate header.now.geometry.sector 0 }
    ensures { IfOk result (λ image. arc_value image ≡ first_at header.now path number) }
{
    let sector = header.geometry.sector();
    let offset = u64::from(number) * u64::from(sector);
    match initial_record(header, path, offset) {
        Some(record) => Ok(Arc::new(alloc, Image::of_record(sector, record))?),
        None => zeros.clone(),
    }
}

/// The tables of all disks. An `Err` is want of memory.
fn first_tables(alloc: Global, header: &Header) -> Result<Tables, AllocError>
    ensures { IfOk result (λ tables. tables ≡ map (first_table header.now) header.now.disks) }
{
    let mut tables = Tables::new(alloc);
    for disk in header.disks.as_slice() {
        let table = Table::new(alloc, disk.path, sectors_on(header.geometry, disk)?)?;
        tables.push(table)?;
    }
    Ok(tables)
}

/// What stands at a sector that is kept.
#[tactic(auto, using(crate::proofs::DiskLaws::sector_kept, crate::proofs::DiskLaws::kept_sized))]
fn kept_sector(
    header: &Header,
    zeros: &Arc<Image>,
    tables: &Tables,
    disk: usize,
    number: usize,
) -> Result<Option<Arc<Image>>, AllocError>
    requires { IsDisks header.now tables.now (arc_value zeros.now) }
    ensures exact { IfOk result (λ image. IfSome image (λ m. arc_value m ≡ sector_in (map (stands_on header.now) tables.now) disk number)) }
    ensures sized { IfOk result (λ image. IfSome image (λ m. length (arc_value m) ≡ header.now.geometry.sector)) }
    ensures none { IfOk result (λ image. image ≡ None → kept_on tables.now disk number ≡ None) }
{
    match tables.get(disk, number) {
        None => Ok(None),
        Some(image) => Ok(Some(image.clone()?)),
    }
}

/// What stands at a sector that nobody touched; it is kept from now on.
#[tactic(auto, using(crate::proofs::DiskLaws::sector_first, crate::proofs::DiskLaws::sector_nowhere, crate::proofs::DiskLaws::first_sized, crate::proofs::DiskLaws::touched_same, crate::proofs::DiskLaws::disks_stay))]
fn untouched_sector(
    header: &Header,
    zeros: &Arc<Image>,
    tables: &mut Tables,
    disk: usize,
    number: usize,
) -> Result<Option<Arc<Image>>, AllocError>
    requires lawful { IsDisks header.now tables.old (arc_value zeros.now) }
    requires untouched { kept_on tables.old disk number ≡ None }
    ensures exact { IfOk result (λ image. unwrap_or (option_map (λ m. arc_value m) image) [] ≡ sector_in (map (stands_on header.now) tables.old) disk number) }
    ensures sized { IfOk result (λ image. IfSome image (λ m. length (arc_value m) ≡ header.now.geometry.sector)) }
    ensures same { map (stands_on header.now) tables.new ≡ map (stands_on header.now) tables.old }
    ensures lawful { IsDisks header.now tables.new (arc_value zeros.now) }
{
    match tables.path_at(disk, number) {
        None => Ok(None),
        Some(path) => {
            let image = first_sector(tables.allocator(), header, zeros, path, number as u32)?;
            tables.put(disk, number, image.clone()?);
            Ok(Some(image))
        }
    }
}

/// What stands at a sector; it is kept from now on.
fn sector_of(
    header: &Header,
    zeros: &Arc<Image>,
    tables: &mut Tables,
    disk: usize,
    number: usize,
) -> Result<Option<Arc<Image>>, AllocError>
    requires { IsDisks header.now tables.old (arc_value zeros.now) }
    ensures exact { IfOk result (λ image. unwrap_or (option_map (λ m. arc_value m) image) [] ≡ sector_in (map (stands_on header.now) tables.old) disk number) }
    ensures sized { IfOk result (λ image. IfSome image (λ m. length (arc_value m) ≡ header.now.geometry.sector)) }
    ensures same { map (stands_on header.now) tables.new ≡ map (stands_on header.now) tables.old }
    ensures lawful { IsDisks header.now tables.new (arc_value zeros.now) }
{
    match kept_sector(header, zeros, tables, disk, number)? {
        Some(image) => Ok(Some(image)),
        None => untouched_sector(header, zeros, tables, disk, number),
    }
}

impl Disks {
    /// The disks of a header's world at moment 0. An `Err` is want of memory.
    #[tactic(auto, using(crate::proofs::DiskLaws::first_stand, crate::proofs::DiskLaws::first_are_disks))]
    pub fn new(alloc: Global, header: Header) -> Result<Disks, AllocError>
        requires { IsHeader header }
        ensures { IfOk result (λ d. d ≡ first_disks header) }
    {
        let tables = first_tables(alloc, &header)?;
        let zeros = zeros(alloc, header.geometry)?;
        Ok(Disks {
            header,
            zeros,
            tables,
        })
    }

    /// The header whose areas stand on these disks at moment 0.
    pub fn header(&self) -> &Header
        ensures exact { result.now ≡ self.now.header }
        ensures lawful { IsHeader self.now.header }
    {
        &self.header
    }

    /// What stands at a sector, if there is one; it is kept from now on. An `Err` is want of memory. Nothing that is seen changes.
    pub fn sector(&mut self, disk: usize, number: u64) -> Result<Option<Arc<Image>>, AllocError>
        ensures exact { IfOk result (λ image. unwrap_or (option_map (λ m. arc_value m) image) [] ≡ sector_in self.old.sectors disk number) }
        ensures sized { IfOk result (λ image. IfSome image (λ m. length (arc_value m) ≡ self.old.header.geometry.sector)) }
        ensures same { self.new ≡ self.old }
    {
        sector_of(
            &self.header,
            &self.zeros,
            &mut self.tables,
            disk,
            number as usize,
        )
    }

    /// A sector is written, if there is one. It takes no memory.
    #[tactic(auto, using(crate::proofs::DiskLaws::disks_stay, crate::proofs::DiskLaws::written))]
    pub fn write(&mut self, place: Place, image: Arc<Image>)
        requires { length (arc_value image) ≡ self.old.header.geometry.sector }
        ensures { self.new ≡ record self.old { sectors = write_sector place (arc_value image) self.old.sectors } }
    {
        self.tables.put(place.disk, place.sector as usize, image);
    }
}
