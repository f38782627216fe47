//! The sectors of a disk, by their numbers.

ghost use Rattle.sl_disks.specs.Disks.{TableState, kept_at, kept_on, path_at, path_if, table_with, tables_with};
ghost use Rattle.std.specs.Arc.{arc_value};
ghost use Rattle.std.specs.Option.{option_copied};
ghost use Rattle.std.specs.Prelude.{IfOk, IfSome, None, OnOk, Some, [], slice_get, ◌^◌, length, map, option_map, replicate, slice_set, ◌++◌, ◌<◌, ◌∷◌, ◌≡◌};

use sl_sector::Image;
use sl_text::FilePath;
use std::alloc::{AllocError, Global};
use std::marker::Model;
use std::sync::Arc;

/// A disk's path, with the sectors that somebody has touched, by their places.
#[derive(Drop)]
pub struct Table {
    path: FilePath,
    slots: Vec<Option<Arc<Image>>>,
}

impl Model for Table {
    ghost use Rattle.sl_disks.specs.Disks.{TableState};
    ghost use Rattle.std.specs.Arc.{arc_value};
    ghost use Rattle.std.specs.Prelude.{length, map, option_map, ◌<◌, ◌^◌};

    ghost Value = { TableState };

    ghost view = { λ t. record { path = t.path; slots = map (λ o. option_map (λ m. arc_value m) o) t.slots.items } };

    ghost invariant = { λ t. length t.slots.items < 2 ^ 32 };
}

/// So many sectors of which none is kept. An `Err` is want of memory.
fn untouched(alloc: Global, sectors: usize) -> Result<Vec<Option<Arc<Image>>>, AllocError>
    ensures many { IfOk result (λ slots. length slots.items ≡ sectors) }
    ensures none { IfOk result (λ slots. map (λ o. option_map (λ m. arc_value m) o) slots.items ≡ replicate sectors None) }
{
    let mut slots = Vec::with_capacity(alloc, sectors)?;
    for _ in 0..sectors {
        slots.push(None)?;
    }
    Ok(slots)
}

/// A sector is kept.
#[tactic(auto, using(crate::proofs::TableLaws::slots_set))]
fn keep(slots: &mut [Option<Arc<Image>>], number: usize, image: Arc<Image>)
    requires { number < length slots.old }
    ensures { map (λ o. option_map (λ m. arc_value m) o) slots.new
        ≡ slice_set (map (λ o. option_map (λ m. arc_value m) o) slots.old) number (Some (arc_value image)) }
{
    slots[number] = Some(image);
}

impl Table {
    /// A disk with so many sectors, of which none is touched. An `Err` is want of memory.
    pub fn new(alloc: Global, path: FilePath, sectors: u32) -> Result<Table, AllocError>
        ensures { IfOk result (λ t. t ≡ record { path = path; slots = replicate sectors None }) }
    {
        Ok(Table {
            path,
            slots: untouched(alloc, sectors as usize)?,
        })
    }

    /// Its path, if it has a sector of this number.
    fn path_at(&self, number: usize) -> Option<FilePath>
        ensures exact { result ≡ path_if self.now.path (slice_get self.now.slots number) }
        ensures small { IfSome result (λ p. number < 2 ^ 32) }
    {
        if number < self.slots.len() {
            Some(self.path)
        } else {
            None
        }
    }

    /// The sector of this number, if it is kept.
    fn get(&self, number: usize) -> Option<&Arc<Image>>
        ensures { option_map (λ m. arc_value m) (option_copied result) ≡ kept_at self.now number }
    {
        match self.slots.get(number) {
            None => None,
            Some(slot) => slot.as_ref(),
        }
    }

    /// The sector of this number is kept, if there is one.
    fn put(&mut self, number: usize, image: Arc<Image>)
        ensures { self.new ≡ table_with number (arc_value image) self.old }
    {
        if number < self.slots.len() {
            keep(&mut self.slots, number, image);
        }
    }
}

/// The tables of all disks, in the order of the header's lines.
#[derive(Drop)]
pub struct Tables {
    items: Vec<Table>,
}

impl Model for Tables {
    ghost use Rattle.sl_disks.specs.Disks.{TableState};
    ghost use Rattle.std.specs.Prelude.{List};

    ghost Value = { List TableState };

    ghost view = { λ t. t.items.items };
}

impl Tables {
    /// No disk's table. It takes no memory.
    pub fn new(alloc: Global) -> Tables
        ensures { result ≡ [] }
    {
        Tables {
            items: Vec::new(alloc),
        }
    }

    /// The allocator by which the tables take memory, for another list of theirs.
    pub fn allocator(&self) -> Global {
        *self.items.allocator()
    }

    /// One more table. An `Err` is want of memory.
    pub fn push(&mut self, table: Table) -> Result<(), AllocError>
        ensures { OnOk result (self.new ≡ self.old ++ table ∷ []) }
    {
        self.items.push(table)?;
        Ok(())
    }

    /// The sector of this number of this disk, if it is kept.
    pub fn get(&self, disk: usize, number: usize) -> Option<&Arc<Image>>
        ensures { option_map (λ m. arc_value m) (option_copied result) ≡ kept_on self.now disk number }
    {
        match self.items.get(disk) {
            None => None,
            Some(table) => table.get(number),
        }
    }

    /// The path of this disk, if it has a sector of this number.
    pub fn path_at(&self, disk: usize, number: usize) -> Option<FilePath>
        ensures exact { result ≡ path_at self.now disk number }
        ensures small { IfSome result (λ p. number < 2 ^ 32) }
    {
        match self.items.get(disk) {
            None => None,
            Some(table) => table.path_at(number),
        }
    }

    /// The sector of this number of this disk is kept, if there is one.
    pub fn put(&mut self, disk: usize, number: usize, image: Arc<Image>)
        ensures { self.new ≡ tables_with disk number (arc_value image) self.old }
    {
        if disk < self.items.len() {
            self.items[disk].put(number, image);
        }
    }
}
