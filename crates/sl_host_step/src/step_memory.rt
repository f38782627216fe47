//! Memory for a step, which is taken before the first change: then nothing in it can fail.
//!
//! A step may have to do with each job, holding, lease and session: so much it then has room for, of effects and of calls. Where nothing is due by
//! time, most inputs have to do with a few of them: a step at such an input has room for these and for what comes last of each session, however
//! much the host holds. That is the step's `Reach`. The lists that it goes by keep their memory from step to step, and the memory of effects that were
//! told serves those of a later step.
//!
//! The room of one step more can be taken ahead, whatever its input. It then stands by, so that a recovery still kills whom it must where no memory
//! is left.

ghost use Rattle.sl_host_step.specs.SpareRoom.{Rests};
ghost use Rattle.sl_host_step.specs.StepMemory.{HasRoom, ScratchState, Suffices, are_many, calls_for, calls_within, counts_of, counts_within, effects_within, left_for, reach_when, room_end};
ghost use Rattle.sl_host_step.specs.HostServes.{IsIdle};
ghost use Rattle.sl_lease.specs.Reads.{HasPlaces};
ghost use Rattle.sl_trace.specs.Traces.{no_effects};
ghost use Rattle.sl_host.specs.BookQuestions.{leases_in};
ghost use Rattle.std.specs.Prelude.{IsOk, OnErr, OnOk, false, length, min, true, ◌<◌, ◌≡◌, ◌≤◌};

use sl_area::Geometry;
use sl_host::{Buffers, Host, Notes};
use sl_lease::Blocks;
use sl_trace::{Effects, Grant, Spot};
use std::alloc::{AllocError, Global};
use std::marker::Model;

/// More than this no step has room for.
const ROOM_END: usize = 0x8000_0000;

/// A host counts no more steps.
const LAST_ENTRY: u64 = 0x8000_0000_0000_0000;

/// Lists that a step goes by: numbers of members and jobs, areas, orphans, and the blocks of a read in areas of these sizes. `none` holds no effects,
/// but memory of such that were told; `spare` is whether the host has the room of a step already.
#[derive(Drop)]
pub(crate) struct Scratch {
    pub(crate) members: Notes<u64>,
    pub(crate) jobs: Notes<u64>,
    pub(crate) spots: Notes<Spot>,
    pub(crate) orphans: Notes<Grant>,
    geometry: Geometry,
    pub(crate) blocks: Blocks,
    job_room: usize,
    pub(crate) none: Buffers,
    spare: bool,
}

impl Model for Scratch {
    ghost use Rattle.sl_host_step.specs.StepMemory.{ScratchState};
    ghost use Rattle.sl_lease.specs.Reads.{HasPlaces};
    ghost use Rattle.sl_host.specs.Books.{no_buffers};
    ghost use Rattle.std.specs.Prelude.{is_some, ◌≡◌, ◌≤◌};

    ghost Value = { ScratchState };

    ghost view = { λ s. record { members = s.members.most; jobs = s.jobs.most; spots = s.spots.most; orphans = s.orphans.most; sizes = s.geometry; kept = is_some s.blocks.kept; spare = s.spare } };

    ghost invariant = { λ s. (s.job_room ≤ s.jobs.most) × HasPlaces s.geometry s.blocks × (s.none ≡ no_buffers) };
}

impl Scratch {
    /// Empty lists, with these places for the blocks of a read.
    pub(crate) fn new(alloc: Global, geometry: &Geometry, blocks: Blocks) -> Scratch
        requires { HasPlaces geometry.now blocks }
        ensures sizes { result.sizes ≡ geometry.now }
        ensures spare { result.spare ≡ false }
    {
        Scratch {
            members: Notes::new(alloc),
            jobs: Notes::new(alloc),
            spots: Notes::new(alloc),
            orphans: Notes::new(alloc),
            geometry: *geometry,
            blocks,
            job_room: 0,
            none: Buffers::none(alloc),
            spare: false,
        }
    }

    /// Sees that there is memory for what the host keeps. An `Err` is want of memory.
    fn reserve(&mut self, alloc: Global, host: &Host, leases: usize) -> Result<(), AllocError>
        requires jobs { length host.now.kept.jobs < room_end }
        requires leases { leases_in host.now.kept.members ≤ leases }
        ensures ok { OnOk result (Suffices self.new host.now) }
        ensures sizes { self.new.sizes ≡ self.old.sizes }
        ensures spare { self.new.spare ≡ self.old.spare }
    {
        self.blocks.reserve(alloc, &self.geometry)?;
        let jobs = host.job_count() + 1;
        self.members.reserve(host.seats())?;
        self.jobs.reserve(jobs)?;
        self.job_room = jobs;
        self.spots.reserve(leases)?;
        self.orphans.reserve(host.holding_count())
    }

    /// The memory of effects that were told may serve a later step.
    pub(crate) fn take_back(&mut self, told: &mut Effects)
        ensures { self.new ≡ self.old }
    {
        self.none.give_back(told);
    }

    /// For how many jobs there is memory.
    pub(crate) fn job_room(&self) -> usize
        ensures { result ≤ self.now.jobs }
    {
        self.job_room
    }
}

/// How far a step reaches: it may have to do with all that the host has, or with a few things besides what comes last of each session.
#[derive(Clone, Copy)]
pub(crate) enum Reach {
    All,
    Few,
}

impl Reach {
    /// The same, or all where something may be due by time.
    pub(crate) fn at(self, is_loud: bool) -> Reach
        ensures { result ≡ reach_when is_loud self }
    {
        if is_loud { Reach::All } else { self }
    }
}

/// What a host has of that which a step may have to do with.
#[derive(Clone, Copy)]
struct Counts {
    jobs: usize,
    holdings: usize,
    leases: usize,
    seats: usize,
}

impl Counts {
    /// How many jobs, holdings, leases and sessions a host has.
    fn of(host: &Host) -> Counts
        ensures { result ≡ counts_of host.now }
    {
        Counts {
            jobs: host.job_count(),
            holdings: host.holding_count(),
            leases: host.lease_count(),
            seats: host.seats(),
        }
    }

    /// Of these what a step with this reach may have to do with, but for the few.
    fn within(self, reach: Reach) -> Counts
        ensures { result ≡ counts_within reach self }
    {
        match reach {
            Reach::All => self,
            Reach::Few => Counts {
                jobs: 0,
                holdings: 0,
                leases: 0,
                seats: self.seats,
            },
        }
    }

    /// Whether there is more of one than a step has room for.
    fn are_many(self) -> bool
        ensures { result ≡ are_many self }
    {
        self.jobs >= ROOM_END
            || self.holdings >= ROOM_END
            || self.leases >= ROOM_END
            || self.seats >= ROOM_END
    }

    /// So many effects at most of each class but calls.
    fn effects(self) -> usize
        ensures { result ≡ min room_end (effects_within self.jobs self.holdings self.leases self.seats) }
    {
        if self.are_many() {
            return ROOM_END;
        }
        let of_tables = 4 * self.jobs + 4 * self.holdings + 3 * self.leases;
        ROOM_END.min(of_tables + 4 * self.seats + 16)
    }

    /// So many calls a step makes at most, by these counts.
    fn calls(self) -> usize
        ensures { result ≡ min room_end (calls_within self.leases self.seats) }
    {
        if self.leases >= ROOM_END || self.seats >= ROOM_END {
            return ROOM_END;
        }
        ROOM_END.min(self.leases + 4 * self.seats + 8)
    }
}

/// So many effects a step makes at most of each class but calls.
pub(crate) fn left_for(host: &Host) -> usize
    ensures { result ≡ left_for host.now }
{
    Counts::of(host).effects()
}

/// How many calls a step makes at most, by the leases and sessions there are.
pub(crate) fn calls_for(host: &Host) -> usize
    ensures { result ≡ calls_for host.now }
{
    Counts::of(host).calls()
}

/// Takes the memory of a step with this reach. An `Err` is want of memory, or of numbers of calls, jobs, children or steps, and changes nothing.
fn take_room(
    alloc: Global,
    host: &mut Host,
    scratch: &mut Scratch,
    reach: Reach,
) -> Result<(), AllocError>
    requires idle { IsIdle host.old }
    requires made { host.old.kept.made ≡ no_effects }
    ensures ok { OnOk result (HasRoom reach host.old host.new × Suffices scratch.new host.old) }
    ensures err { OnErr result (host.new ≡ host.old) }
    ensures sizes { scratch.new.sizes ≡ scratch.old.sizes }
    ensures spare { scratch.new.spare ≡ scratch.old.spare }
{
    let counts = Counts::of(host);
    if counts.are_many() || host.entries() >= LAST_ENTRY {
        return Err(AllocError);
    }
    let near = counts.within(reach);
    scratch.reserve(alloc, host, counts.leases)?;
    host.reserve(near.effects(), near.calls())?;
    Ok(())
}

/// The room of a step with this reach: what stands by, or memory that is taken now. An `Err` is as above, and never comes where room stands by.
#[tactic(auto, using(crate::proofs::SpareRoom::rests_without, crate::proofs::RoomsStand::room_of_all))]
pub(crate) fn room(
    alloc: Global,
    host: &mut Host,
    scratch: &mut Scratch,
    reach: Reach,
) -> Result<(), AllocError>
    requires rests { Rests scratch.old host.old }
    requires made { host.old.kept.made ≡ no_effects }
    ensures ok { OnOk result (HasRoom reach host.old host.new × Suffices scratch.new host.old) }
    ensures used { OnOk result (scratch.new.spare ≡ false) }
    ensures err { OnErr result (host.new ≡ host.old) }
    ensures rests { OnErr result (Rests scratch.new host.new) }
    ensures sizes { scratch.new.sizes ≡ scratch.old.sizes }
    ensures spared { scratch.old.spare ≡ true → IsOk result }
{
    if scratch.spare {
        scratch.spare = false;
        return Ok(());
    }
    take_room(alloc, host, scratch, reach)
}

/// Sees that the room of one step stands by, whatever its input. An `Err` is as above.
#[tactic(auto, using(crate::proofs::SpareRoom::rests_with, crate::proofs::SpareRoom::rests_without))]
pub(crate) fn stand_by(
    alloc: Global,
    host: &mut Host,
    scratch: &mut Scratch,
) -> Result<(), AllocError>
    requires rests { Rests scratch.old host.old }
    requires made { host.old.kept.made ≡ no_effects }
    ensures ok { OnOk result (scratch.new.spare ≡ true) }
    ensures rests { Rests scratch.new host.new }
    ensures kept { host.new.kept ≡ host.old.kept }
    ensures err { OnErr result (host.new ≡ host.old) }
    ensures sizes { scratch.new.sizes ≡ scratch.old.sizes }
{
    if scratch.spare {
        return Ok(());
    }
    take_room(alloc, host, scratch, Reach::All)?;
    scratch.spare = true;
    Ok(())
}
