//! A call in flight.

ghost use Rattle.sha2.specs.Sha256.{sha256};
ghost use Rattle.sl_world_state.specs.Daemons.{IsSoundOp};
ghost use Rattle.sl_world_state.specs.Changes.{cut_flight, disowned, stays_open};
ghost use Rattle.sl_world_state.specs.KeptWorld.{FlightState};
ghost use Rattle.sl_world_state.specs.Refusals.{lands, left_in};
ghost use Rattle.sl_world_state.specs.Steps.{new_flight};
ghost use Rattle.sl_machine.specs.Flights.{ended_flight, grown_flight, late_cut};
ghost use Rattle.sl_run.specs.Headers.{IsHeader};
ghost use Rattle.sl_sector.specs.Records.{IsRecord};
ghost use Rattle.sl_trace.specs.Traces as traces;
ghost use Rattle.std.specs.Arc.{arc_value};
ghost use Rattle.std.specs.Prelude.{IfOk, IfSome, OnErr, OnOk, flat_map, is_some, length, option_map, ◌++◌, ◌==◌, ◌≡◌, ◌≤◌};
ghost use Rattle.std.specs.List.{list_all};

use sl_disks::{Place, place_of, sectors_of};
use sl_run::Header;
use sl_sector::{Image, Images, Rec};
use sl_trace::{Call, Op};
use std::alloc::{AllocError, Global};
use std::marker::Model;
use std::sync::Arc;

/// How the way of a write ends: whole, in part, or never.
#[derive(Clone, Copy)]
pub enum Outcome {
    Landed,
    Torn,
    Dropped,
}

/// A call in flight: what the world's next events ask of it. Its path, its purpose and its session are asked for by nobody.
#[derive(Drop)]
pub struct Flight {
    number: u64,
    place: Option<Place>,
    sectors: u32,
    /// Bytes of a sector.
    size: u32,
    /// What it writes; none for a read.
    write: Option<Rec>,
    /// What it has sampled, and how many sectors that are.
    sampled: Vec<Arc<Image>>,
    samples: u64,
    flying: bool,
    landed: bool,
    torn: bool,
    own: bool,
    cut: Option<u64>,
}

impl Model for Flight {
    ghost use Rattle.sha2.specs.Sha256.{sha256};
    ghost use Rattle.sl_world_state.specs.KeptWorld.{FlightState};
    ghost use Rattle.sl_machine.specs.OneFlight.{IsFlight};
    ghost use Rattle.sl_sector.specs.SectorLayouts.{spelling};
    ghost use Rattle.std.specs.Arc.{arc_value};
    ghost use Rattle.std.specs.Prelude.{flat_map, length, option_map, ◌==◌};
    ghost use Rattle.std.specs.List.{list_all};

    ghost Value = { FlightState };

    ghost view = { λ f. record {
      number = f.number;
      place = f.place;
      sectors = f.sectors;
      write = option_map (spelling sha256 f.size) f.write;
      sampled = flat_map (λ m. arc_value m) f.sampled.items;
      samples = f.samples;
      flying = f.flying;
      landed = f.landed;
      torn = f.torn;
      own = f.own;
      cut = f.cut;
    } };

    ghost invariant = { λ f. IsFlight f.size f.write (list_all (λ m. length (arc_value m) == f.size) f.sampled.items) };
}

/// What a call writes.
fn record_of(op: &Op) -> Option<Rec>
    requires { IsSoundOp op.now }
    ensures exact { result ≡ traces.record_of op.now }
    ensures lawful { IfSome result IsRecord }
{
    match op {
        Op::ReadSectors { sectors: _ } => None,
        Op::WriteRecord { record } => Some(*record),
    }
}

/// Whether the sector has this size.
fn is_sized(image: &Arc<Image>, size: u32) -> bool
    ensures { result ≡ (length (arc_value image.now) == size) }
{
    image.size() == size
}

/// Whether all have this size.
fn are_sized(images: &[Arc<Image>], size: u32) -> bool
    ensures { result ≡ list_all (λ m. length (arc_value m) == size) images.now }
{
    images.iter().all(|image| is_sized(image, size))
}

/// Adds sectors. An `Err` is want of memory, or of sectors of another size.
fn push_all(images: &mut Images, size: u32, more: &[Arc<Image>]) -> Result<(), AllocError>
    requires { images.old.size ≡ size }
    ensures { OnOk result ((images.new.bytes ≡ images.old.bytes ++ flat_map (λ m. arc_value m) more.now) × (images.new.size ≡ size)) }
{
    for image in more {
        if !is_sized(image, size) {
            return Err(AllocError);
        }
        images.push(image)?;
    }
    Ok(())
}

impl Flight {
    /// A call that is just made. It takes no memory.
    #[tactic(auto, using(sl_disks::proofs::InitialLaws::is_size))]
    pub fn made(alloc: Global, header: &Header, call: &Call) -> Flight
        requires lawful { IsHeader header.now }
        requires sound { IsSoundOp call.now.op }
        ensures { result ≡ new_flight header.now call.now }
    {
        let size = header.geometry.sector();
        Flight {
            number: call.number,
            place: place_of(header, call),
            sectors: sectors_of(&call.op),
            size,
            write: record_of(&call.op),
            sampled: Vec::new(alloc),
            samples: 0,
            flying: true,
            landed: false,
            torn: false,
            own: true,
            cut: None,
        }
    }

    /// The number of its call, by which answers find it.
    pub fn number(&self) -> u64
        ensures { result ≡ self.now.number }
    {
        self.number
    }

    /// The place of its first sector; none where the call does not lie on a disk.
    pub fn place(&self) -> Option<Place>
        ensures { result ≡ self.now.place }
    {
        self.place
    }

    /// Whether it writes.
    pub fn writes(&self) -> bool
        ensures { result ≡ is_some self.now.write }
    {
        self.write.is_some()
    }

    /// How many of its sectors were sampled so far; of a write none.
    pub fn samples(&self) -> u64
        ensures { result ≡ self.now.samples }
    {
        self.samples
    }

    /// How many of its sectors are still to be sampled.
    pub fn left(&self) -> u64
        ensures { result ≡ left_in self.now }
    {
        u64::from(self.sectors).saturating_sub(self.samples)
    }

    /// Whether it has not taken effect: a write that may still land, or a read.
    pub fn is_flying(&self) -> bool
        ensures { result ≡ self.now.flying }
    {
        self.flying
    }

    /// Whether it is a write that took effect whole.
    pub fn has_landed(&self) -> bool
        ensures { result ≡ self.now.landed }
    {
        self.landed
    }

    /// Whether it is a write that took effect in part.
    pub fn is_torn(&self) -> bool
        ensures { result ≡ self.now.torn }
    {
        self.torn
    }

    /// Whether the daemon that runs made it.
    pub fn is_own(&self) -> bool
        ensures { result ≡ self.now.own }
    {
        self.own
    }

    /// The first reset since it was made, where it is a write that may still land.
    pub fn late_cut(&self) -> Option<u64>
        ensures { result ≡ late_cut self.now }
    {
        if self.may_land() { self.cut } else { None }
    }

    /// Whether it is a write that may still land.
    pub fn may_land(&self) -> bool
        ensures { result ≡ lands self.now }
    {
        self.write.is_some() && self.flying
    }

    /// Whether it is in flight still: its daemon runs, or it may land.
    pub fn stays_open(&self) -> bool
        ensures { result ≡ stays_open self.now }
    {
        self.own || self.may_land()
    }

    /// The sector that it leaves whole, if it writes. An `Err` is want of memory.
    pub fn sector(&self, alloc: Global) -> Result<Option<Arc<Image>>, AllocError>
        ensures { IfOk result (λ image. option_map (λ m. arc_value m) image ≡ self.now.write) }
    {
        match self.write {
            None => Ok(None),
            Some(record) => Ok(Some(Arc::new(alloc, Image::of_record(self.size, record))?)),
        }
    }

    /// What it has sampled, and these sectors behind it. An `Err` is want of memory, or of sectors of another size.
    pub fn images(&self, alloc: Global, more: &[Arc<Image>]) -> Result<Images, AllocError>
        ensures { IfOk result (λ s. s.bytes ≡ self.now.sampled ++ flat_map (λ m. arc_value m) more.now) }
    {
        let mut images = Images::new(alloc, self.size);
        push_all(&mut images, self.size, &self.sampled)?;
        push_all(&mut images, self.size, more)?;
        Ok(images)
    }

    /// It samples these sectors, so many. An `Err` is want of memory, or of sectors of another size, and changes nothing.
    pub fn sample(&mut self, more: Vec<Arc<Image>>, sectors: u64) -> Result<(), AllocError>
        requires { sectors ≤ left_in self.old }
        ensures ok { OnOk result (self.new ≡ grown_flight (flat_map (λ m. arc_value m) more.items) sectors self.old) }
        ensures err { OnErr result (self.new ≡ self.old) }
    {
        let mut more = more;
        if !are_sized(&more, self.size) {
            return Err(AllocError);
        }
        self.sampled.append(&mut more)?;
        self.samples += sectors;
        Ok(())
    }

    /// A write lands, is torn or is dropped.
    pub fn end(&mut self, outcome: Outcome)
        ensures { self.new ≡ ended_flight outcome self.old }
    {
        self.flying = false;
        self.landed = match outcome {
            Outcome::Landed => true,
            Outcome::Torn => false,
            Outcome::Dropped => false,
        };
        self.torn = match outcome {
            Outcome::Landed => false,
            Outcome::Torn => true,
            Outcome::Dropped => false,
        };
    }

    /// Its daemon has ended: nobody waits for its answer, but a write may still land.
    pub fn disown(&mut self)
        ensures { self.new ≡ disowned self.old }
    {
        self.own = false;
    }

    /// Its machine has gone down at this moment: a write may land for `land` longer.
    pub fn cut(&mut self, moment: u64)
        ensures { self.new ≡ cut_flight moment self.old }
    {
        self.own = false;
        if self.cut.is_none() {
            self.cut = Some(moment);
        }
    }
}
