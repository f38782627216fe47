//! Reads: what they sample, and what they are answered.

ghost use Rattle.sl_world_state.specs.Changes.{change_flight, sampled_flight};
ghost use Rattle.sl_world_state.specs.Inputs.{rest_in};
ghost use Rattle.sl_world_state.specs.KeptWorld.{FlightState, change_machine_in, flight_of_machine};
ghost use Rattle.sl_world_state.specs.Refusals.{left_in};
ghost use Rattle.sl_machine.specs.CallWrites.{at_first, samples_of};
ghost use Rattle.sl_machine.specs.Flights.{grown_flight};
ghost use Rattle.sl_machine.specs.KeptParts.{kept_state};
ghost use Rattle.std.specs.Arc.{arc_value};
ghost use Rattle.std.specs.Option.{option_copied};
ghost use Rattle.std.specs.Prelude.{IfOk, OnErr, OnOk, Some, flat_map, ◌++◌, ◌≡◌, ◌≤◌};

use crate::calls::gather;
use crate::flight::Flight;
use crate::kept_world::{Kept, place_of};
use crate::locks::LockTable;
use sl_disks::Place;
use sl_sector::{Image, Images};
use std::alloc::AllocError;
use std::sync::Arc;

/// Where a call lies; nowhere where it is not in flight.
fn place_of_flight(flight: Option<&Flight>) -> Option<Place>
    ensures { result ≡ at_first (option_copied flight.entry) }
{
    match flight {
        None => None,
        Some(flight) => flight.place(),
    }
}

/// How many sectors it has sampled; none where it is not in flight.
fn samples_of(flight: Option<&Flight>) -> u64
    ensures { result ≡ samples_of (option_copied flight.entry) }
{
    match flight {
        None => 0,
        Some(flight) => flight.samples(),
    }
}

impl<L: LockTable> Kept<L> {
    /// The next sectors of a call, so many. An `Err` is want of memory. Nothing that is seen changes.
    pub fn next_sectors(
        &mut self,
        machine: u32,
        call: u64,
        sectors: u64,
    ) -> Result<Vec<Arc<Image>>, AllocError>
        ensures bytes { IfOk result (λ more. (f : FlightState) → flight_of_machine (kept_state L.locks self.old) machine call ≡ Some f
            → f.sampled ++ flat_map (λ m. arc_value m) more.items ≡ rest_in (kept_state L.locks self.old) f sectors) }
        ensures same { kept_state L.locks self.new ≡ kept_state L.locks self.old }
        ensures machines { self.new.machines ≡ self.old.machines }
    {
        let alloc = *self.machines.allocator();
        let place = place_of_flight(self.flight(machine, call));
        let first = samples_of(self.flight(machine, call));
        let more = gather(alloc, &mut self.disks, place, first, sectors)?;
        Ok(more)
    }

    /// A read samples these sectors, so many: what an event makes of the call that it names. An `Err` is want of memory, and changes
    /// nothing that is seen.
    fn add_samples(
        &mut self,
        machine: u32,
        call: u64,
        more: Vec<Arc<Image>>,
        sectors: u64,
    ) -> Result<(), AllocError>
        requires { (f : FlightState) → flight_of_machine (kept_state L.locks self.old) machine call ≡ Some f → sectors ≤ left_in f }
        ensures ok { OnOk result ((g : FlightState → FlightState)
            → ((f : FlightState) → flight_of_machine (kept_state L.locks self.old) machine call ≡ Some f → g f ≡ grown_flight (flat_map (λ m. arc_value m) more.items) sectors f)
            → kept_state L.locks self.new ≡ change_machine_in machine (change_flight call g) (kept_state L.locks self.old)) }
        ensures err { OnErr result (kept_state L.locks self.new ≡ kept_state L.locks self.old) }
    {
        match place_of(self.machines.len(), machine) {
            None => Ok(()),
            Some(index) => match self.machines[index].sample(call, more, sectors) {
                Ok(()) => Ok(()),
                Err(_) => Err(AllocError),
            },
        }
    }

    /// A read samples its next sectors, so many. An `Err` is want of memory, and changes nothing that is seen.
    pub fn sample(&mut self, machine: u32, call: u64, sectors: u64) -> Result<(), AllocError>
        requires { (f : FlightState) → flight_of_machine (kept_state L.locks self.old) machine call ≡ Some f → sectors ≤ left_in f }
        ensures ok { OnOk result (kept_state L.locks self.new
            ≡ change_machine_in machine (change_flight call (sampled_flight (kept_state L.locks self.old) sectors)) (kept_state L.locks self.old)) }
        ensures err { OnErr result (kept_state L.locks self.new ≡ kept_state L.locks self.old) }
    {
        let more = self.next_sectors(machine, call, sectors)?;
        self.add_samples(machine, call, more, sectors)
    }

    /// What a read has sampled. An `Err` is want of memory.
    pub fn images(&self, machine: u32, call: u64) -> Result<Images, AllocError>
        ensures { IfOk result (λ s. (f : FlightState) → flight_of_machine (kept_state L.locks self.now) machine call ≡ Some f → s.bytes ≡ f.sampled) }
    {
        let images = self.images_with(machine, call, &[])?;
        Ok(images)
    }

    /// What a read has sampled, and these sectors behind it. An `Err` is want of memory.
    fn images_with(
        &self,
        machine: u32,
        call: u64,
        more: &[Arc<Image>],
    ) -> Result<Images, AllocError>
        ensures { IfOk result (λ s. (f : FlightState) → flight_of_machine (kept_state L.locks self.now) machine call ≡ Some f
            → s.bytes ≡ f.sampled ++ flat_map (λ m. arc_value m) more.now) }
    {
        let alloc = *self.machines.allocator();
        match self.flight(machine, call) {
            None => Err(AllocError),
            Some(flight) => flight.images(alloc, more),
        }
    }
}
