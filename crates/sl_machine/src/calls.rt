//! Calls: what they sample, and what they leave on the disks.
//!
//! What an event needs of memory is taken before it changes anything. (Sectors of another size than the world's are none of it. No call
//! has such; where one had, it would be answered as want of memory.)

ghost use Rattle.sl_world_state.specs.Changes.{change_flight, landed_in, write_at};
ghost use Rattle.sl_world_state.specs.KeptWorld.{change_machine_in, flight_of_machine, sector_of_call};
ghost use Rattle.sl_machine.specs.CallWrites.{LeavesWhole};
ghost use Rattle.sl_machine.specs.Flights.{ended_flight};
ghost use Rattle.sl_machine.specs.KeptParts.{kept_state};
ghost use Rattle.std.specs.Arc.{arc_value};
ghost use Rattle.std.specs.List.{range_with_len};
ghost use Rattle.std.specs.Prelude.{IfOk, IfSome, None, OnErr, OnOk, Some, [], flat_map, option_map, unwrap_or, ◌++◌, ◌+◌, is_none, length, true, ◌≡◌};
ghost use Rattle.std.specs.Option.{option_copied};

use crate::flight::{Flight, Outcome};
use crate::kept_world::Kept;
use crate::locks::LockTable;
use sl_disks::{Disks, Place};
use sl_sector::Image;
use std::alloc::{AllocError, Global};
use std::sync::Arc;

/// What a write leaves of a sector, and at which place.
#[derive(Drop)]
pub struct Landing {
    pub place: Option<Place>,
    pub image: Arc<Image>,
}

/// Where a call's sector lies. An `Err` is of a number that no sector has.
fn number_of(first: u64, index: u64) -> Result<u64, AllocError>
    ensures { IfOk result (λ n. n ≡ first + index) }
{
    match first.checked_add(index) {
        Some(number) => Ok(number),
        None => Err(AllocError),
    }
}

/// A sector of a call, if it lies there. An `Err` is want of memory. Nothing that is seen changes.
pub fn sector_at(
    disks: &mut Disks,
    place: Option<Place>,
    index: u64,
) -> Result<Option<Arc<Image>>, AllocError>
    ensures bytes { IfOk result (λ image. unwrap_or (option_map (λ m. arc_value m) image) [] ≡ sector_of_call disks.old.sectors place index) }
    ensures same { disks.new ≡ disks.old }
{
    match place {
        None => Ok(None),
        Some(place) => disks.sector(place.disk, number_of(place.sector, index)?),
    }
}

/// Adds a sector, if there is one. An `Err` is want of memory.
fn push_some(images: &mut Vec<Arc<Image>>, image: Option<Arc<Image>>) -> Result<(), AllocError>
    ensures { OnOk result (flat_map (λ m. arc_value m) images.new.items ≡ flat_map (λ m. arc_value m) images.old.items ++ unwrap_or (option_map (λ m. arc_value m) image) []) }
{
    if let Some(image) = image {
        images.push(image)?;
    }
    Ok(())
}

/// So many sectors of a call, from one on. An `Err` is want of memory. Nothing that is seen changes.
pub fn gather(
    alloc: Global,
    disks: &mut Disks,
    place: Option<Place>,
    first: u64,
    sectors: u64,
) -> Result<Vec<Arc<Image>>, AllocError>
    ensures bytes { IfOk result (λ images. flat_map (λ m. arc_value m) images.items ≡ flat_map (sector_of_call disks.old.sectors place) (range_with_len first sectors)) }
    ensures same { disks.new ≡ disks.old }
{
    let mut images = Vec::new(alloc);
    for done in 0..sectors {
        let image = sector_at(disks, place, number_of(first, done)?)?;
        push_some(&mut images, image)?;
    }
    Ok(images)
}

/// What the call leaves, with sectors of this size. An `Err` is want of memory, or of a call that leaves no such sector.
fn landing_of(alloc: Global, sector: u32, flight: &Flight) -> Result<Landing, AllocError>
    ensures place { IfOk result (λ l. l.place ≡ flight.now.place) }
    ensures bytes { IfOk result (λ l. flight.now.write ≡ Some (arc_value l.image)) }
    ensures sized { IfOk result (λ l. length (arc_value l.image) ≡ sector) }
{
    match flight.sector(alloc)? {
        None => Err(AllocError),
        Some(image) => {
            if image.size() != sector {
                return Err(AllocError);
            }
            Ok(Landing {
                place: flight.place(),
                image,
            })
        }
    }
}

impl<L: LockTable> Kept<L> {
    /// The call in flight of a machine, if there is one.
    #[tactic(auto, unfolding(crate::specs::Machines::machine_state))]
    pub fn flight(&self, machine: u32, call: u64) -> Option<&Flight>
        ensures { option_copied result ≡ flight_of_machine (kept_state L.locks self.now) machine call }
    {
        match self.machine(machine) {
            None => None,
            Some(machine) => machine.flights.get(call),
        }
    }

    /// How many bytes a sector has: 512 or 4096.
    #[tactic(auto, unfolding(crate::specs::KeptParts::kept_state))]
    pub fn sector(&self) -> u32
        ensures { result ≡ (kept_state L.locks self.now).header.geometry.sector }
    {
        self.disks.header().geometry.sector()
    }

    /// What a write leaves, if it is in flight. An `Err` is want of memory, or of a call that leaves no sector.
    pub fn landing(&self, machine: u32, call: u64) -> Result<Option<Landing>, AllocError>
        ensures some { IfOk result (λ l. IfSome l (λ x. LeavesWhole (kept_state L.locks self.now) machine call x.place (arc_value x.image))) }
        ensures none { IfOk result (λ l. is_none l ≡ true → flight_of_machine (kept_state L.locks self.now) machine call ≡ None) }
    {
        let alloc = *self.machines.allocator();
        let sector = self.sector();
        match self.flight(machine, call) {
            None => Ok(None),
            Some(flight) => Ok(Some(landing_of(alloc, sector, flight)?)),
        }
    }

    /// A sector is written, if there is one there. It takes no memory.
    #[tactic(auto, unfolding(crate::specs::KeptParts::kept_state))]
    pub fn write(&mut self, place: Option<Place>, image: Arc<Image>)
        requires { length (arc_value image) ≡ self.old.disks.header.geometry.sector }
        ensures { kept_state L.locks self.new ≡ write_at place (arc_value image) (kept_state L.locks self.old) }
    {
        if let Some(place) = place {
            self.disks.write(place, image);
        }
    }

    /// A write takes effect, whole or in part. It takes no memory.
    pub fn put(&mut self, machine: u32, call: u64, landing: Landing, outcome: Outcome)
        requires { length (arc_value landing.image) ≡ self.old.disks.header.geometry.sector }
        ensures { kept_state L.locks self.new
            ≡ change_machine_in machine (change_flight call (ended_flight outcome)) (write_at landing.place (arc_value landing.image) (kept_state L.locks self.old)) }
    {
        self.write(landing.place, landing.image);
        self.end_call(machine, call, outcome);
    }

    /// A write takes effect whole, if it is in flight. An `Err` is want of memory, and changes nothing that is seen.
    pub fn land(&mut self, machine: u32, call: u64) -> Result<(), AllocError>
        ensures ok { OnOk result (kept_state L.locks self.new ≡ landed_in machine call (kept_state L.locks self.old)) }
        ensures err { OnErr result (kept_state L.locks self.new ≡ kept_state L.locks self.old) }
    {
        if let Some(landing) = self.landing(machine, call)? {
            self.put(machine, call, landing, Outcome::Landed);
        }
        Ok(())
    }
}
